ghost use Rattle.std.specs.Prelude.{◌≡◌};
ghost use Rattle.i3c_program.specs.Sessions.{is_wrong};

use crate::came::Came;
use crate::scenario::Scenario;
use crate::standing::Standing;
use crate::trial::Trial;
use i3c_drive::{Answerer, Form};
use i3c_explore::Limits;
use i3c_orders::Which;
use i3c_text::Text;
use std::alloc::{AllocError, Global};

/// On which terms a program meets the orders of a scene.
#[derive(Drop)]
pub struct Terms {
    /// The form of the answers.
    pub form: Form,
    /// What is run, and kept, in front of the scene's block and before each line of the program.
    pub limits: Limits,
    /// Which orders are tried.
    pub which: Which,
    /// The most orders that are tried.
    pub most: u64,
    /// The most marks that are kept, each with the state and the places where the program sent it.
    pub states: u64,
}

/// How the session of a program ended.
#[derive(Clone, Copy, Debug, PartialEq, Eq)]
pub enum Ending {
    /// Every order that was to be tried was, and each line of the program was done, or refused by the bus.
    Tried,
    /// Not every one was, or a line of the program wasn't done.
    Wanting,
    /// An order breaks an expectation.
    Unmet,
}

/// The session of a program that meets a scenario's orders: its lines are answered one after another (`Answerer`).
#[derive(Drop)]
pub struct Session {
    trial: Trial,
    form: Form,
    // whether a line wasn't done, for a reason of the program's own
    wrong: bool,
}

impl Session {
    ghost use Rattle.std.specs.Prelude.{◌≡◌, false, IfOk};
    ghost use Rattle.i3c_program.specs.Sessions.{HasBegun, ending_of};

    /// A session before its first line, on these terms.
    ///
    /// # Errors
    ///
    /// There is no memory for it.
    pub fn new(alloc: Global, scenario: Scenario, terms: Terms) -> Result<Session, AllocError>
        ensures begun { IfOk result (λ session. HasBegun scenario terms.most terms.states terms.which session.trial) }
        ensures form { IfOk result (λ session. session.form ≡ terms.form) }
        ensures wrong { IfOk result (λ session. session.wrong ≡ false) }
    {
        let trial = Trial::new(alloc, scenario, terms.most, terms.states, terms.which)?;
        Ok(Session {
            trial,
            form: terms.form,
            wrong: false,
        })
    }

    /// How the session ended, where no other line comes.
    pub fn ending(&self) -> Ending
        ensures { result ≡ ending_of self.now.trial.standing self.now.wrong }
    {
        match &self.trial.standing {
            Standing::Broken(_) => Ending::Unmet,
            Standing::Tried if !self.wrong => Ending::Tried,
            Standing::Tried | Standing::Going | Standing::Left | Standing::Stopped => {
                Ending::Wanting
            }
        }
    }
}

impl Answerer for Session {
    ghost use Rattle.i3c_program.specs.Sessions.{IsAnswered};

    ghost answers = { IsAnswered };

    fn answer(&mut self, number: u64, line: &[u8], text: &mut Text) -> Result<(), AllocError> {
        let came = self.trial.advance(line)?;
        self.wrong |= is_wrong(came);
        self.trial.push(self.form, number, came, text)
    }
}

/// Whether a line that came to this wasn't done, for a reason of the program's own.
fn is_wrong(came: Came) -> bool
    ensures { result ≡ is_wrong came }
{
    match came {
        Came::Refused(_) | Came::Differs => true,
        Came::Nothing
        | Came::Told(_)
        | Came::Known
        | Came::Breaks
        | Came::Begins
        | Came::All
        | Came::Tried
        | Came::Script
        | Came::Choices
        | Came::Same => false,
    }
}
