ghost use Rattle.std.specs.Prelude.{◌≡◌, ◌++◌, ◌∷◌, ℕ, List, Some, codes, option_copied};
ghost use Rattle.i3c_lines.specs.Forms.{AreAddress, AreAddresses, AreAsked, AreByte, AreCount, AreDeclared, AreDevice, AreKinds, AreLength, ArePlace, IsForm, IsNamed, IsSentForm, Writes, tokens_of};
ghost use Rattle.i3c_lines.specs.Data.{length_token};
ghost use Rattle.i3c_lines.specs.Parsing.{AreKept, AreNamed, AreWilling, Becomes, BecomesOther, BecomesSent, IsOtherForm, Reads, TakesIdentity, TakesToken, left_tokens, tokens_in};

use crate::data::datum;
use crate::names::Name;
use crate::policies::{EXCEPTED, policy, policy_but};
use crate::sent::{Sent, sent_of};
use crate::tokens::{self, Tokens, after, is_token};
use arrayvec::ArrayVec;
use i3c_base::{Addr7, Bcr, Datum, Dcr, Direction, Fixed, Identity, Kinds, Length, Lvr, Setup};
use i3c_step::{Command as Frame, WRITE_KEPT};

// Tokens behind their first letters. Letters that are compared at once take fewer steps than one by one.
const RAISE: &[u8] = b"aise ";

const READ: &[u8] = b"ead ";

const RESET: &[u8] = b"eset";

const ROUND: &[u8] = b"ound";

const SERVE: &[u8] = b"erve";

const SHOW: &[u8] = b"how";

const SHOW_ALL: &[u8] = b"how all";

const SHOW_FROM: &[u8] = b"how ";

const SYMBOLS: &[u8] = b"ymbols";

const SETDASA: &[u8] = b"etdasa ";

const SETNEWDA: &[u8] = b"etnewda ";

const SETMWL: &[u8] = b"etmwl ";

const SETMRL: &[u8] = b"etmrl ";

const ENEC: &[u8] = b"nec ";

const END: &[u8] = b"nd";

const DISEC: &[u8] = b"isec ";

const DAA: &[u8] = b"aa";

const LIST: &[u8] = b"ist";

const OPEN: &[u8] = b"pen";

const WRITE: &[u8] = b"rite ";

const GET: &[u8] = b"et";

const AS: &[u8] = b"s ";

// Whole tokens.
const DROP: &[u8] = b"drop";

const ATTACH: &[u8] = b"attach";

const ASK_JOIN: &[u8] = b"ask-join";

const ASK_ROLE: &[u8] = b"ask-role";

const HANDOVER: &[u8] = b"handover";

const CUT: &[u8] = b"cut";

const POLICY: &[u8] = b"policy";

const LEGACY: &[u8] = b"legacy";

const DECLARE: &[u8] = b"declare";

const MAIN: &[u8] = b"main";

const FRAMES: &[u8] = b"frames";

const FORGET: &[u8] = b"forget";

/// The command of a line, with its names as the line has them.
#[derive(Drop)]
pub enum Command {
    /// `legacy NAME ADDR LVR`: a legacy target is declared at a static address.
    Legacy {
        name: Name,
        address: Addr7,
        lvr: Lvr,
    },
    /// `declare ADDR PID BCR DCR`: an identity is declared at a static address.
    Declare {
        address: Addr7,
        identity: Identity,
    },
    /// `main NAME PID BCR DCR [decline]`: the bus starts, with its main controller in slot 0.
    Main {
        name: Name,
        setup: Setup,
    },
    /// `attach NAME PID BCR DCR [decline]`: a device enters the lowest free slot.
    Attach {
        name: Name,
        setup: Setup,
    },
    /// `drop NAME`: a device loses power, and is gone.
    DropOff {
        name: Name,
    },
    /// `raise NAME [BYTE]`: a device raises an interrupt, with its mandatory byte if it sends one.
    Raise {
        name: Name,
        byte: Option<u8>,
    },
    /// `ask-join NAME`: a device wishes to join.
    AskJoin {
        name: Name,
    },
    /// `ask-role NAME`: a device wishes for the controller role.
    AskRole {
        name: Name,
    },
    /// A line that sends a frame under the role: `serve`, `enec BYTE [ADDR]`, `disec BYTE [ADDR]`, `reset`, `list`,
    /// `read ADDR`, `write ADDR [BYTES]`, `setdasa ADDR NEW`, `setnewda OLD NEW`, `getpid ADDR` and its like,
    /// `setmwl N [ADDR]` or `setmrl N [ADDR]`. A write of too many bytes has one more
    /// than it may have.
    Frame(Frame),
    /// `handover ADDR`: the role is offered to the device at an address.
    HandOver {
        to: Addr7,
    },
    /// `open`: a session of dynamic address assignment is opened, and stays open.
    Open,
    /// `round`: one round of the open session.
    Round,
    /// `end`: the open session ends.
    End,
    /// `daa`: a whole session of dynamic address assignment.
    Daa,
    /// `as NAME LINE`: a line of the controller with this name, which is refused unless that is the active controller.
    As {
        name: Name,
        sent: Sent,
    },
    /// `policy all`, `policy none` or `policy KIND..`: which requests the frames from now on accept. A KIND is `joins`,
    /// `roles` or `interrupts`, and no other kind is accepted.
    Policy(Fixed),
    /// `policy all but NAME..`, `policy KIND.. but NAME..`: the same, but a request is turned down where one of these
    /// devices drives it.
    PolicyBut {
        kinds: Fixed,
        but: ArrayVec<Name, EXCEPTED>,
    },
    /// `cut NAME BIT`: a device loses power at a bit of the next frame.
    Cut {
        name: Name,
        bit: u16,
    },
    /// `show`: the bus as it is.
    Show,
    /// `show all`: the same, and for each device its identity, its enabled events and its wishes.
    ShowAll,
    /// `show N`: the same as `show`, but of the records only those from this number on.
    ShowFrom(u64),
    /// `forget N`: the records up to this number leave the log.
    Forget(u64),
    /// `symbols`: the last symbols of the wire.
    Symbols,
    /// `frames N`: the last N whole frames of these symbols.
    Frames(u16),
}

/// Names the reading of a line for a command of its own.
struct Parsing;

/// Names the reading of a line behind `as NAME`.
struct Acting;

impl Command {
    /// The command of a line, if the line has a form. Its tokens are parted by exactly one space.
    pub fn parse(line: &[u8]) -> Option<Command>
        ensures { Reads IsForm (tokens_of line.now) result }
    {
        let mut command = Command::Show;
        command.read::<Parsing>(line)?;
        Some(command)
    }

    /// Becomes the command of a line, if the line has a form. Otherwise it is unchanged. So nothing of a command's size is
    /// moved for each line. `K` names the caller, so that each caller has it in line.
    pub fn read<K>(&mut self, line: &[u8]) -> Option<()>
        ensures { Becomes (tokens_of line.now) result self.old self.new }
    {
        let (first, tail) = line.split_first()?;
        match *first {
            b'r' => self.read_r::<K>(tail),
            b's' => self.read_s::<K>(tail),
            b'e' => self.read_e::<K>(tail),
            b'd' => self.read_d::<K>(tail, line),
            b'l' => self.read_l::<K>(tail, line),
            b'o' => self.read_o::<K>(tail),
            b'w' => self.read_w::<K>(tail),
            b'g' => self.read_g(tail),
            b'a' => self.read_a::<K>(tail, line),
            _ => self.read_tokens_of(line),
        }
    }

    /// Becomes this command.
    fn set(&mut self, command: Command) -> Option<()>
        ensures { (result ≡ Some tt) × (self.new ≡ command) }
    {
        *self = command;
        Some(())
    }

    /// Becomes a command whose first letter is an `r`, by the line behind that.
    fn read_r<K>(&mut self, tail: &[u8]) -> Option<()>
        ensures { Becomes (tokens_of (114 ∷ tail.now)) result self.old self.new }
    {
        if let Some(line) = after(tail, RAISE) {
            return self.read_raise::<K>(line);
        }
        if let Some(token) = after(tail, READ) {
            return self.read_read::<K>(token);
        }
        if is_token(tail, RESET) {
            return self.set(Command::Frame(Frame::Reset));
        }
        if is_token(tail, ROUND) {
            return self.set(Command::Round);
        }
        None
    }

    /// Becomes a command whose first letter is an `s`, by the line behind that.
    fn read_s<K>(&mut self, tail: &[u8]) -> Option<()>
        ensures { Becomes (tokens_of (115 ∷ tail.now)) result self.old self.new }
    {
        if is_token(tail, SERVE) {
            return self.set(Command::Frame(Frame::Serve));
        }
        if let Some(line) = after(tail, SETDASA) {
            return self.read_setdasa::<K>(line);
        }
        self.read_other_s(tail)
    }

    /// Becomes another command whose first letter is an `s`, by the line behind that.
    // kept apart, so that `serve` and `setdasa` don't pay for these
    #[inline(never)]
    fn read_other_s(&mut self, tail: &[u8]) -> Option<()>
        requires serve { tail.now ≡ codes "erve" → ⊥ }
        requires fixed { (rest : List ℕ) → tail.now ≡ codes "etdasa " ++ rest → ⊥ }
        ensures { Becomes (tokens_of (115 ∷ tail.now)) result self.old self.new }
    {
        if is_token(tail, SHOW) {
            return self.set(Command::Show);
        }
        if is_token(tail, SYMBOLS) {
            return self.set(Command::Symbols);
        }
        if is_token(tail, SHOW_ALL) {
            return self.set(Command::ShowAll);
        }
        if let Some(line) = after(tail, SETNEWDA) {
            return self.read_setnewda(line);
        }
        if let Some(line) = after(tail, SETMWL) {
            return self.read_length(Direction::Write, line);
        }
        if let Some(line) = after(tail, SETMRL) {
            return self.read_length(Direction::Read, line);
        }
        if let Some(line) = after(tail, SHOW_FROM) {
            return self.read_shown(line);
        }
        None
    }

    /// Becomes a command whose first letter is an `e`, by the line behind that.
    fn read_e<K>(&mut self, tail: &[u8]) -> Option<()>
        ensures { Becomes (tokens_of (101 ∷ tail.now)) result self.old self.new }
    {
        if let Some(line) = after(tail, ENEC) {
            return self.read_enec::<K>(line);
        }
        if is_token(tail, END) {
            return self.set(Command::End);
        }
        None
    }

    /// Becomes a command whose first letter is a `d`, by the line behind that, or by the line.
    fn read_d<K>(&mut self, tail: &[u8], line: &[u8]) -> Option<()>
        requires { line.now ≡ 100 ∷ tail.now }
        ensures { Becomes (tokens_of line.now) result self.old self.new }
    {
        if let Some(line) = after(tail, DISEC) {
            return self.read_disec::<K>(line);
        }
        if is_token(tail, DAA) {
            return self.set(Command::Daa);
        }
        self.read_tokens_of(line)
    }

    /// Becomes a command whose first letter is an `l`, by the line behind that, or by the line.
    fn read_l<K>(&mut self, tail: &[u8], line: &[u8]) -> Option<()>
        requires { line.now ≡ 108 ∷ tail.now }
        ensures { Becomes (tokens_of line.now) result self.old self.new }
    {
        if is_token(tail, LIST) {
            return self.set(Command::Frame(Frame::SendList));
        }
        self.read_tokens_of(line)
    }

    /// Becomes the command whose first letter is an `o`, by the line behind that.
    fn read_o<K>(&mut self, tail: &[u8]) -> Option<()>
        ensures { Becomes (tokens_of (111 ∷ tail.now)) result self.old self.new }
    {
        if is_token(tail, OPEN) {
            return self.set(Command::Open);
        }
        None
    }

    /// Becomes the command whose first letter is a `w`, by the line behind that.
    fn read_w<K>(&mut self, tail: &[u8]) -> Option<()>
        ensures { Becomes (tokens_of (119 ∷ tail.now)) result self.old self.new }
    {
        if let Some(line) = after(tail, WRITE) {
            return self.read_write(line);
        }
        None
    }

    /// Becomes a question for a datum, by the line behind its first letter, which is a `g`.
    // kept apart, so that no other line pays for the tokens of data
    #[inline(never)]
    fn read_g(&mut self, tail: &[u8]) -> Option<()>
        ensures { Becomes (tokens_of (103 ∷ tail.now)) result self.old self.new }
    {
        let line = after(tail, GET)?;
        let (what, at) = parse_asked(&mut Tokens::of(line))?;
        *self = Command::Frame(Frame::Get(what, at));
        Some(())
    }

    /// Becomes a command whose first letter is an `a`, by the line behind that, or by the line.
    fn read_a<K>(&mut self, tail: &[u8], line: &[u8]) -> Option<()>
        requires { line.now ≡ 97 ∷ tail.now }
        ensures { Becomes (tokens_of line.now) result self.old self.new }
    {
        if let Some(line) = after(tail, AS) {
            return self.read_as(line);
        }
        self.read_tokens_of(line)
    }

    /// Becomes `as NAME LINE`, by the tokens behind its first.
    // kept apart, so that no other line pays for the room that a line of its own takes on the stack
    #[inline(never)]
    fn read_as(&mut self, line: &[u8]) -> Option<()>
        ensures { Becomes (codes "as" ∷ tokens_of line.now) result self.old self.new }
    {
        let (name, rest) = Name::split_from(line)?;
        let behind = rest?;
        let sent = parse_sent(behind)?;
        *self = Command::As { name, sent };
        Some(())
    }

    /// Becomes the command of a line that a controller sends, if the line is one. It may become another command too.
    #[tactic(auto, using(crate::proofs::SentLaws::sent_becomes, crate::proofs::SentLaws::other_becomes))]
    fn read_sent(&mut self, line: &[u8]) -> Option<()>
        ensures { BecomesSent (tokens_of line.now) result self.new }
    {
        let (first, tail) = line.split_first()?;
        match *first {
            b'r' => self.read_r::<Acting>(tail),
            b's' => self.read_s::<Acting>(tail),
            b'e' => self.read_e::<Acting>(tail),
            b'd' => self.read_d::<Acting>(tail, line),
            b'l' => self.read_l::<Acting>(tail, line),
            b'o' => self.read_o::<Acting>(tail),
            b'w' => self.read_w::<Acting>(tail),
            b'g' => self.read_g(tail),
            b'h' => self.read_tokens_of(line),
            _ => None,
        }
    }

    /// Becomes a raise by the tokens behind its first: a name, and a byte if one is given.
    fn read_raise<K>(&mut self, line: &[u8]) -> Option<()>
        ensures { Becomes (codes "raise" ∷ tokens_of line.now) result self.old self.new }
    {
        let (name, rest) = Name::split_from(line)?;
        let byte = parse_mandatory(rest)?;
        *self = Command::Raise { name, byte };
        Some(())
    }

    /// Becomes a private read by the token behind its first: an address.
    fn read_read<K>(&mut self, token: &[u8]) -> Option<()>
        ensures { Becomes (codes "read" ∷ tokens_of token.now) result self.old self.new }
    {
        let at = tokens::address(token)?;
        *self = Command::Frame(Frame::ReadFrom(at));
        Some(())
    }

    /// Becomes a private write by the tokens behind its first: an address, and bytes if there are some.
    // kept apart, so that no other line pays for the room that the bytes take on the stack
    #[inline(never)]
    fn read_write(&mut self, line: &[u8]) -> Option<()>
        ensures { Becomes (codes "write" ∷ tokens_of line.now) result self.old self.new }
    {
        let (address, rest) = tokens::split_two(line)?;
        let at = tokens::address(address)?;
        let bytes = parse_written(rest)?;
        *self = Command::Frame(Frame::WriteTo(at, bytes));
        Some(())
    }

    /// Becomes the command that enables kinds of events, by the tokens behind its first.
    fn read_enec<K>(&mut self, line: &[u8]) -> Option<()>
        ensures { Becomes (codes "enec" ∷ tokens_of line.now) result self.old self.new }
    {
        let (to, kinds) = parse_kinds(line)?;
        *self = Command::Frame(Frame::Enec(to, kinds));
        Some(())
    }

    /// Becomes the command that disables kinds of events, by the tokens behind its first.
    fn read_disec<K>(&mut self, line: &[u8]) -> Option<()>
        ensures { Becomes (codes "disec" ∷ tokens_of line.now) result self.old self.new }
    {
        let (to, kinds) = parse_kinds(line)?;
        *self = Command::Frame(Frame::Disec(to, kinds));
        Some(())
    }

    /// Becomes SETDASA, by the tokens behind its first: a static address and a dynamic one.
    fn read_setdasa<K>(&mut self, line: &[u8]) -> Option<()>
        ensures { Becomes (codes "setdasa" ∷ tokens_of line.now) result self.old self.new }
    {
        let (at, to) = parse_addresses(line)?;
        *self = Command::Frame(Frame::SetStatic(at, to));
        Some(())
    }

    /// Becomes SETNEWDA, by the tokens behind its first: a dynamic address and another one.
    fn read_setnewda(&mut self, line: &[u8]) -> Option<()>
        ensures { Becomes (codes "setnewda" ∷ tokens_of line.now) result self.old self.new }
    {
        let (at, to) = parse_addresses(line)?;
        *self = Command::Frame(Frame::SetNew(at, to));
        Some(())
    }

    /// Becomes SETMWL or SETMRL, by the tokens behind its first: a length, and an address if one is given.
    // kept apart, so that no other line pays for it
    #[inline(never)]
    fn read_length(&mut self, way: Direction, line: &[u8]) -> Option<()>
        ensures { Becomes (length_token way ∷ tokens_of line.now) result self.old self.new }
    {
        let (most, to) = parse_length(&mut Tokens::of(line))?;
        *self = Command::Frame(Frame::SetLength(way, most, to));
        Some(())
    }

    /// Becomes `show N`, by the token behind its first, which isn't `all`: a number.
    // kept apart, so that no other line pays for it
    #[inline(never)]
    fn read_shown(&mut self, line: &[u8]) -> Option<()>
        requires { line.now ≡ codes "all" → ⊥ }
        ensures { Becomes (codes "show" ∷ tokens_of line.now) result self.old self.new }
    {
        let first = parse_place(&mut Tokens::of(line))?;
        *self = Command::ShowFrom(first);
        Some(())
    }

    /// Becomes any other command of several tokens, if the line has its form.
    // kept apart, so that no other line pays for the room that these take on the stack
    #[inline(never)]
    fn read_tokens_of(&mut self, line: &[u8]) -> Option<()>
        ensures { BecomesOther (tokens_of line.now) result self.old self.new }
    {
        self.read_tokens(&mut Tokens::of(line))
    }

    /// Becomes the command of several tokens that has this first token, if the others have its form.
    fn read_tokens(&mut self, tokens: &mut Tokens<'_>) -> Option<()>
        ensures { BecomesOther (left_tokens tokens.old) result self.old self.new }
    {
        let token = tokens.next()?;
        if is_token(token, DROP) {
            return self.read_drop(tokens);
        }
        if is_token(token, ATTACH) {
            return self.read_attach(tokens);
        }
        if is_token(token, ASK_JOIN) {
            return self.read_ask_join(tokens);
        }
        if is_token(token, ASK_ROLE) {
            return self.read_ask_role(tokens);
        }
        if is_token(token, HANDOVER) {
            return self.read_handover(tokens);
        }
        if is_token(token, CUT) {
            return self.read_cut(tokens);
        }
        self.read_rare(token, tokens)
    }

    /// Becomes the command that has this first token, which is none of those above, if the others have its form.
    fn read_rare(&mut self, token: &[u8], tokens: &mut Tokens<'_>) -> Option<()>
        requires drops { token.now ≡ codes "drop" → ⊥ }
        requires attaches { token.now ≡ codes "attach" → ⊥ }
        requires joins { token.now ≡ codes "ask-join" → ⊥ }
        requires roles { token.now ≡ codes "ask-role" → ⊥ }
        requires offers { token.now ≡ codes "handover" → ⊥ }
        requires cuts { token.now ≡ codes "cut" → ⊥ }
        ensures { BecomesOther (token.now ∷ left_tokens tokens.old) result self.old self.new }
    {
        if is_token(token, POLICY) {
            return self.read_policy(tokens);
        }
        if is_token(token, LEGACY) {
            return self.read_legacy(tokens);
        }
        if is_token(token, DECLARE) {
            return self.read_declare(tokens);
        }
        if is_token(token, MAIN) {
            return self.read_main(tokens);
        }
        if is_token(token, FRAMES) {
            return self.read_frames(tokens);
        }
        if is_token(token, FORGET) {
            return self.read_forget(tokens);
        }
        None
    }

    /// Becomes `legacy`, by the tokens behind it.
    fn read_legacy(&mut self, tokens: &mut Tokens<'_>) -> Option<()>
        ensures { Becomes (codes "legacy" ∷ left_tokens tokens.old) result self.old self.new }
    {
        let name = parse_name(tokens)?;
        let address = tokens::address(tokens.next()?)?;
        let lvr = Lvr(parse_byte(tokens)?);
        tokens.end()?;
        *self = Command::Legacy { name, address, lvr };
        Some(())
    }

    /// Becomes `declare`, by the tokens behind it.
    fn read_declare(&mut self, tokens: &mut Tokens<'_>) -> Option<()>
        ensures { Becomes (codes "declare" ∷ left_tokens tokens.old) result self.old self.new }
    {
        let (address, identity) = parse_declared(tokens)?;
        *self = Command::Declare { address, identity };
        Some(())
    }

    /// Becomes `main`, by the tokens behind it.
    fn read_main(&mut self, tokens: &mut Tokens<'_>) -> Option<()>
        ensures { Becomes (codes "main" ∷ left_tokens tokens.old) result self.old self.new }
    {
        let (name, setup) = parse_device(tokens)?;
        *self = Command::Main { name, setup };
        Some(())
    }

    /// Becomes `attach`, by the tokens behind it.
    fn read_attach(&mut self, tokens: &mut Tokens<'_>) -> Option<()>
        ensures { Becomes (codes "attach" ∷ left_tokens tokens.old) result self.old self.new }
    {
        let (name, setup) = parse_device(tokens)?;
        *self = Command::Attach { name, setup };
        Some(())
    }

    /// Becomes `drop`, by the token behind it: a name.
    fn read_drop(&mut self, tokens: &mut Tokens<'_>) -> Option<()>
        ensures { Becomes (codes "drop" ∷ left_tokens tokens.old) result self.old self.new }
    {
        let name = parse_last_name(tokens)?;
        *self = Command::DropOff { name };
        Some(())
    }

    /// Becomes `ask-join`, by the token behind it: a name.
    fn read_ask_join(&mut self, tokens: &mut Tokens<'_>) -> Option<()>
        ensures { Becomes (codes "ask-join" ∷ left_tokens tokens.old) result self.old self.new }
    {
        let name = parse_last_name(tokens)?;
        *self = Command::AskJoin { name };
        Some(())
    }

    /// Becomes `ask-role`, by the token behind it: a name.
    fn read_ask_role(&mut self, tokens: &mut Tokens<'_>) -> Option<()>
        ensures { Becomes (codes "ask-role" ∷ left_tokens tokens.old) result self.old self.new }
    {
        let name = parse_last_name(tokens)?;
        *self = Command::AskRole { name };
        Some(())
    }

    /// Becomes `handover`, by the token behind it: an address.
    fn read_handover(&mut self, tokens: &mut Tokens<'_>) -> Option<()>
        ensures { Becomes (codes "handover" ∷ left_tokens tokens.old) result self.old self.new }
    {
        let to = tokens::address(tokens.next()?)?;
        tokens.end()?;
        *self = Command::HandOver { to };
        Some(())
    }

    /// Becomes a policy, by the tokens behind its first: with exceptions if there is a `but` among them.
    // kept apart, so that no other line pays for the room that names take on the stack
    #[inline(never)]
    fn read_policy(&mut self, tokens: &mut Tokens<'_>) -> Option<()>
        ensures { Becomes (codes "policy" ∷ left_tokens tokens.old) result self.old self.new }
    {
        let mut all = *tokens;
        if let Some(policy) = policy(&mut all) {
            return self.set(Command::Policy(policy));
        }
        let (kinds, but) = policy_but(tokens)?;
        *self = Command::PolicyBut { kinds, but };
        Some(())
    }

    /// Becomes `cut`, by the tokens behind it: a name and a bit.
    fn read_cut(&mut self, tokens: &mut Tokens<'_>) -> Option<()>
        ensures { Becomes (codes "cut" ∷ left_tokens tokens.old) result self.old self.new }
    {
        let name = parse_name(tokens)?;
        let bit = tokens::bit(tokens.next()?)?;
        tokens.end()?;
        *self = Command::Cut { name, bit };
        Some(())
    }

    /// Becomes `frames`, by the token behind it: a count.
    fn read_frames(&mut self, tokens: &mut Tokens<'_>) -> Option<()>
        ensures { Becomes (codes "frames" ∷ left_tokens tokens.old) result self.old self.new }
    {
        let count = parse_count(tokens)?;
        *self = Command::Frames(count);
        Some(())
    }

    /// Becomes `forget`, by the token behind it: the number of a record.
    fn read_forget(&mut self, tokens: &mut Tokens<'_>) -> Option<()>
        ensures { Becomes (codes "forget" ∷ left_tokens tokens.old) result self.old self.new }
    {
        let last = parse_place(tokens)?;
        *self = Command::Forget(last);
        Some(())
    }
}

/// A line that a controller sends, if the tokens have the form of one.
fn parse_sent(line: &[u8]) -> Option<Sent>
    ensures { Reads IsSentForm (tokens_of line.now) result }
{
    let mut command = Command::Show;
    command.read_sent(line)?;
    sent_of(command)
}

/// A static address and the identity that is declared at it.
fn parse_declared(tokens: &mut Tokens<'_>) -> Option<(Addr7, Identity)>
    ensures { Reads (λ tokens parts. AreDeclared tokens parts.0 parts.1) (left_tokens tokens.old) result }
{
    let address = tokens::address(tokens.next()?)?;
    let identity = parse_identity(tokens)?;
    tokens.end()?;
    Some((address, identity))
}

/// The tokens of a device: its name and its identity, and `decline` if it doesn't take the controller role.
fn parse_device(tokens: &mut Tokens<'_>) -> Option<(Name, Setup)>
    ensures { Reads (λ tokens parts. AreDevice tokens parts.0 parts.1) (left_tokens tokens.old) result }
{
    let name = parse_name(tokens)?;
    let identity = parse_identity(tokens)?;
    let willing = parse_willing(tokens)?;
    Some((name, Setup { identity, willing }))
}

/// Three tokens, which are an identity.
fn parse_identity(tokens: &mut Tokens<'_>) -> Option<Identity>
    ensures { TakesIdentity (left_tokens tokens.old) (left_tokens tokens.new) result }
{
    let pid = tokens::pid(tokens.next()?)?;
    let bcr = Bcr(parse_byte(tokens)?);
    let dcr = Dcr(parse_byte(tokens)?);
    Some(Identity { pid, bcr, dcr })
}

/// Whether a device takes the controller role: the last token of its line, if there is one.
fn parse_willing(tokens: &mut Tokens<'_>) -> Option<bool>
    ensures { Reads AreWilling (left_tokens tokens.old) result }
{
    match tokens.next() {
        None => Some(true),
        Some(b"decline") => {
            tokens.end()?;
            Some(false)
        }
        Some(_) => None,
    }
}

/// The next token, which is a name.
fn parse_name(tokens: &mut Tokens<'_>) -> Option<Name>
    ensures { TakesToken IsNamed (left_tokens tokens.old) (left_tokens tokens.new) result }
{
    Name::parse(tokens.next()?)
}

/// The last token, which is a name.
fn parse_last_name(tokens: &mut Tokens<'_>) -> Option<Name>
    ensures { Reads AreNamed (left_tokens tokens.old) result }
{
    let name = parse_name(tokens)?;
    tokens.end()?;
    Some(name)
}

/// The next token, which is a byte.
fn parse_byte(tokens: &mut Tokens<'_>) -> Option<u8>
    ensures { TakesToken (Writes 2) (left_tokens tokens.old) (left_tokens tokens.new) result }
{
    tokens::byte(tokens.next()?)
}

/// The last token, which is a count.
fn parse_count(tokens: &mut Tokens<'_>) -> Option<u16>
    ensures { Reads AreCount (left_tokens tokens.old) result }
{
    let count = tokens::count(tokens.next()?)?;
    tokens.end()?;
    Some(count)
}

/// The last token, which is the number of a record.
fn parse_place(tokens: &mut Tokens<'_>) -> Option<u64>
    ensures { Reads ArePlace (left_tokens tokens.old) result }
{
    let place = tokens::place(tokens.next()?)?;
    tokens.end()?;
    Some(place)
}

/// The tokens of `enec` and of `disec`: a byte, and an address if one is given.
fn parse_kinds(line: &[u8]) -> Option<(Option<Addr7>, Kinds)>
    ensures { Reads (λ tokens parts. AreKinds tokens parts.0 parts.1) (tokens_of line.now) result }
{
    let (byte, rest) = tokens::split_two(line)?;
    let kinds = tokens::kinds(byte)?;
    let to = parse_to(rest)?;
    Some((to, kinds))
}

/// The tokens of `setdasa` and of `setnewda`: two addresses.
fn parse_addresses(line: &[u8]) -> Option<(Addr7, Addr7)>
    ensures { Reads (λ tokens parts. AreAddresses tokens parts.0 parts.1) (tokens_of line.now) result }
{
    let (first, rest) = tokens::split_two(line)?;
    let at = tokens::address(first)?;
    let second = rest?;
    let to = tokens::address(second)?;
    Some((at, to))
}

/// The tokens of a question behind its letters `get`: a datum's, and an address.
fn parse_asked(tokens: &mut Tokens<'_>) -> Option<(Datum, Addr7)>
    ensures { Reads (λ tokens parts. AreAsked tokens parts.0 parts.1) (left_tokens tokens.old) result }
{
    let what = datum(tokens.next()?)?;
    let at = tokens::address(tokens.next()?)?;
    tokens.end()?;
    Some((what, at))
}

/// The tokens of `setmwl` and of `setmrl`: a length, and an address if one is given.
fn parse_length(tokens: &mut Tokens<'_>) -> Option<(Length, Option<Addr7>)>
    ensures { Reads (λ tokens parts. AreLength tokens parts.0 parts.1) (left_tokens tokens.old) result }
{
    let most = tokens::length(tokens.next()?)?;
    let to = parse_last_address(tokens)?;
    Some((most, to))
}

/// The last token, which is an address, if there is one.
fn parse_last_address(tokens: &mut Tokens<'_>) -> Option<Option<Addr7>>
    ensures { Reads AreAddress (left_tokens tokens.old) result }
{
    let Some(token) = tokens.next() else {
        return Some(None);
    };
    let at = tokens::address(token)?;
    tokens.end()?;
    Some(Some(at))
}

/// The last tokens of `raise`: a byte, if one is given.
#[inline(always)]
fn parse_mandatory(rest: Option<&[u8]>) -> Option<Option<u8>>
    ensures { Reads AreByte (tokens_in (option_copied rest.entry)) result }
{
    let Some(token) = rest else {
        return Some(None);
    };
    let byte = tokens::byte(token)?;
    Some(Some(byte))
}

/// The last tokens of `enec` and of `disec`: an address, if one is given.
#[inline(always)]
fn parse_to(rest: Option<&[u8]>) -> Option<Option<Addr7>>
    ensures { Reads AreAddress (tokens_in (option_copied rest.entry)) result }
{
    let Some(token) = rest else {
        return Some(None);
    };
    let at = tokens::address(token)?;
    Some(Some(at))
}

/// The last tokens of `write`: its bytes, if some are given. A token of no bytes has no form.
#[inline(always)]
fn parse_written(rest: Option<&[u8]>) -> Option<ArrayVec<u8, WRITE_KEPT>>
    ensures { Reads AreKept (tokens_in (option_copied rest.entry)) result }
{
    let Some(digits) = rest else {
        return Some(ArrayVec::new());
    };
    if digits.is_empty() {
        return None;
    }
    tokens::bytes(digits)
}
