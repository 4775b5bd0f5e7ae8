ghost use Rattle.std.specs.Prelude.{◌≡◌};
ghost use Rattle.i3c_program.specs.Sessions.{written};

use crate::came::Came;
use crate::order_name::{push_choices, push_numbers};
use crate::order_script::push_script;
use crate::reason::Reason;
use crate::standing::Standing;
use crate::telling::{
    push_all, push_aside, push_differs, push_due, push_reason, push_refused, push_told_lines,
    push_told_object, push_tried, push_unmet, push_unmet_object,
};
use crate::trial::Trial;
use i3c_drive::{Form, push_last};
use i3c_every::Sent;
use i3c_json::Aside;
use i3c_scene::ProgramLine;
use i3c_text::Text;
use std::alloc::AllocError;

impl Trial {
    ghost use Rattle.std.specs.Prelude.{◌≡◌, ◌++◌, ℕ, List, OnOk};
    ghost use Rattle.serde_json.specs.Data.{Data};
    ghost use Rattle.i3c_program.specs.declared.came.Came.{Came as CameValue};
    ghost use Rattle.i3c_program.specs.Answers.{WritesLine};
    ghost use Rattle.i3c_program.specs.Scripts.{IsScript};
    ghost use Rattle.i3c_program.specs.Sessions.{Answers, HasLines, HasObject, due_line, run_of, same_in};

    /// Appends the answer to a line of this number that came to this.
    pub(crate) fn push(
        &self,
        form: Form,
        number: u64,
        came: Came,
        text: &mut Text,
    ) -> Result<(), AllocError>
        ensures { OnOk result (Answers form number came self.now text.old text.new) }
    {
        match form {
            Form::Lines => self.push_lines(number, came, text),
            Form::Json => self.push_object(number, came, text),
        }
    }

    /// Appends the answer in lines.
    fn push_lines(&self, number: u64, came: Came, text: &mut Text) -> Result<(), AllocError>
        ensures { OnOk result ((said : List ℕ) × HasLines number came self.now said × (text.new ≡ text.old ++ said)) }
    {
        match came {
            Came::Nothing => push_last(number, &None, text),
            Came::Refused(reason) => push_refused(number, reason, text),
            Came::Differs => {
                push_due(self.due_line(), text)?;
                push_refused(number, Reason::Differs, text)
            }
            Came::Told(changed) => self.push_newest(number, changed, text),
            Came::Known => {
                text.push(b"known\n")?;
                push_last(number, &None, text)
            }
            Came::Breaks => self.push_broken(number, text),
            Came::Begins => {
                text.push_numbered(b"order ", self.order)?;
                push_last(number, &None, text)
            }
            Came::All => {
                push_all(self.order, text)?;
                push_last(number, &None, text)
            }
            Came::Tried => {
                push_tried(self.order, text)?;
                push_last(number, &None, text)
            }
            Came::Script => {
                self.push_script(text)?;
                push_last(number, &None, text)
            }
            Came::Choices => {
                push_choices(self.orders.choices(), text)?;
                push_last(number, &None, text)
            }
            Came::Same => {
                text.push_numbered(b"same ", self.same())?;
                push_last(number, &None, text)
            }
        }
    }

    /// Appends what the program was told last, in lines.
    fn push_newest(&self, number: u64, changed: bool, text: &mut Text) -> Result<(), AllocError>
        ensures { OnOk result ((said : List ℕ) × HasLines number (CameValue.Told changed) self.now said × (text.new ≡ text.old ++ said)) }
    {
        match self.orders.newest() {
            Some(step) => push_told_lines(number, &step.answer, changed, text),
            None => Err(AllocError),
        }
    }

    /// Appends which expectation doesn't hold, in lines.
    fn push_broken(&self, number: u64, text: &mut Text) -> Result<(), AllocError>
        ensures { OnOk result ((said : List ℕ) × HasLines number CameValue.Breaks self.now said × (text.new ≡ text.old ++ said)) }
    {
        match &self.standing {
            Standing::Broken(broken) => {
                push_unmet(number, broken.number, broken.there.as_bytes(), text)
            }
            Standing::Going | Standing::Left | Standing::Tried | Standing::Stopped => {
                Err(AllocError)
            },
        }
    }

    /// Appends the answer as an object.
    fn push_object(&self, number: u64, came: Came, text: &mut Text) -> Result<(), AllocError>
        ensures { OnOk result ((value : Data) × HasObject number came self.now value × WritesLine value text.old text.new) }
    {
        let alloc = self.alloc;
        match came {
            Came::Nothing => push_aside(alloc, number, Aside::Nothing, text),
            Came::Refused(reason) => push_reason(alloc, number, reason, text),
            Came::Differs => push_differs(alloc, number, self.due_line(), text),
            Came::Told(changed) => self.push_newest_object(number, changed, text),
            Came::Known => push_aside(alloc, number, Aside::Known, text),
            Came::Breaks => self.push_broken_object(number, text),
            Came::Begins => push_aside(alloc, number, Aside::Order(self.order), text),
            Came::All => push_aside(alloc, number, Aside::All(self.order), text),
            Came::Tried => push_aside(alloc, number, Aside::Tried(self.order), text),
            Came::Script => self.push_script_object(number, text),
            Came::Choices => self.push_choices_object(number, text),
            Came::Same => push_aside(alloc, number, Aside::Same(self.same()), text),
        }
    }

    /// Appends what the program was told last, as an object.
    fn push_newest_object(
        &self,
        number: u64,
        changed: bool,
        text: &mut Text,
    ) -> Result<(), AllocError>
        ensures { OnOk result ((value : Data) × HasObject number (CameValue.Told changed) self.now value × WritesLine value text.old text.new) }
    {
        match self.orders.newest() {
            Some(step) => push_told_object(self.alloc, number, &step.answer, changed, text),
            None => Err(AllocError),
        }
    }

    /// Appends which expectation doesn't hold, as an object.
    fn push_broken_object(&self, number: u64, text: &mut Text) -> Result<(), AllocError>
        ensures { OnOk result ((value : Data) × HasObject number CameValue.Breaks self.now value × WritesLine value text.old text.new) }
    {
        match &self.standing {
            Standing::Broken(broken) => {
                let there = broken.there.as_bytes();
                push_unmet_object(self.alloc, number, broken.number, there, text)
            }
            Standing::Going | Standing::Left | Standing::Tried | Standing::Stopped => {
                Err(AllocError)
            },
        }
    }

    /// Appends the run as a script, as an object.
    fn push_script_object(&self, number: u64, text: &mut Text) -> Result<(), AllocError>
        ensures { OnOk result ((value : Data) × HasObject number CameValue.Script self.now value × WritesLine value text.old text.new) }
    {
        let mut script = Text::new(self.alloc);
        self.push_script(&mut script)?;
        push_aside(self.alloc, number, Aside::Script(script.as_bytes()), text)
    }

    /// Appends the numbers of the answers that the run's lines took, as an object.
    fn push_choices_object(&self, number: u64, text: &mut Text) -> Result<(), AllocError>
        ensures { OnOk result ((value : Data) × HasObject number CameValue.Choices self.now value × WritesLine value text.old text.new) }
    {
        let mut numbers = Text::new(self.alloc);
        push_numbers(self.orders.choices(), &mut numbers)?;
        push_aside(self.alloc, number, Aside::Choices(numbers.as_bytes()), text)
    }

    /// Appends the run as a script.
    fn push_script(&self, text: &mut Text) -> Result<(), AllocError>
        ensures { OnOk result ((script : List ℕ) × IsScript self.now.scenario (run_of self.now) self.now.standing script × (text.new ≡ text.old ++ script)) }
    {
        push_script(
            self.alloc,
            &self.scenario,
            self.orders.choices(),
            &self.standing,
            text,
        )
    }

    /// How many of the next lines are answered as in the run before: those that it sent here, but for the last one, which gets
    /// another answer.
    fn same(&self) -> u64
        ensures { result ≡ same_in self.now }
    {
        let ahead = self.orders.path().len() - self.orders.choices().len();
        ahead.saturating_sub(1) as u64
    }

    /// The line that was due, or nothing.
    fn due_line(&self) -> &[u8]
        ensures { result.now ≡ due_line self.now }
    {
        match self.orders.due() {
            Some(sent) => written(sent),
            None => &[],
        }
    }
}

/// What a program sends, as it is written.
fn written(sent: &Sent<ProgramLine>) -> &[u8]
    ensures { result.now ≡ written sent.now }
{
    match sent {
        Sent::Meets(line) | Sent::Alone(line) => line.text(),
        Sent::Waits => b"wait",
        Sent::Marks(mark) => mark.as_bytes(),
    }
}
