/// A text at the end of a help.
#[derive(Clone, Copy)]
pub(crate) enum Help {
    /// What a script says, and what the verbs do.
    Script,
    /// How lines are answered.
    Driving,
    /// What a picture shows.
    Drawing,
    /// What the file of an exploration says.
    Exploring,
}

/// What `--help` says below the list of commands.
const TEACHING: &str = "\
Without a command, the script on standard input is run, as 'run -' does.

A script says what happens on the bus, one line for each event, and each line prints what came of it:

  main hub 020400000001 46 C0   the bus starts with its controller: name, PID, BCR, DCR
  attach t 020400000010 06 44   a device enters the lowest free slot
  daa                           devices without an address get one
  raise t 11                    the device t raises an interrupt, with its byte
  serve                         the controller serves the first request
  drop t                        the device t loses power, and is gone
  cut t 9                       it does so in the midst of the next frame, at bit 9
  show                          who is there, at which addresses, and what was recorded
  show all                      the same, with PIDs, enabled kinds and wishes
  show 8                        as show, but of what was recorded only the eighth and later
  symbols                       the last symbols of the wire
  frames 2                      its last two whole frames, a line each
  expect t waiting 0            whether this holds here: 'met', or 'unmet', the line's number and what is there
  always not t gone             from here to 'close' this holds behind each line, or 'unmet' is printed once

'check' runs nothing, and tells each line of a script that has no form, and why.
'draw' runs a script, and prints a picture of its wire, an SVG.
'trace' reads such symbols, and tells the requests, commands, rounds and transfers of each frame. With --all it knows more
commands.
'trace --vcd' reads the symbols of a capture first, a value change dump with the signals 'scl' and 'sda'.
'explore' tries every order of tracks that may interleave, and tells one in which something doesn't hold.
'wave' runs a script, and prints SCL and SDA with their times, a value change dump. 'wave --trace' does so with such symbols.
With --plain the dump has these two alone, for a reader that takes no texts.

Exit status:
  0  each line was done
  1  a line was refused, and printed 'refused' and why; or 'check' told a line
  2  the script was not run, or the trace not read, to its end, and standard error says why
  3  what is expected didn't hold, and 'unmet' was printed, or 'explore' found an order in which something doesn't hold

'run --test' ends with 0 if each line has a form and what is expected holds, refused lines or not, and otherwise with 3.

'i3cbus --version' prints which program this is.

docs/FORMATS.md has every line of a script, what it prints and when it is refused; examples/ has scripts.";

/// What `drive --help` says at its end.
const DRIVING: &str = "\
The lines are those of a script. The answer to each is what it prints, then each interrupt that it recorded, as 'show'
prints it, and then one last line with the line's number: 'ok 7', or 'refused 7 NoAnswer 09'.

With --json the answer to each is one object on one line, with fields for the line's number, what it came to, and the rest:

  {\"line\":7,\"ok\":true,\"served\":\"turned down\"}

With --every the lines of the scene's tracks run between the program's, in another order in each run of the program, until it
has met every order. The program has six more lines:

  wait       it has nothing to do until something happens: 'happened', or 'nothing left'
  again      its run is over: 'order 2' begins, or 'all 12 orders' were tried
  script     the lines of its run so far, as a script
  choices    the answers that they took, as 'choices 0.13.1', by which --order tries this order alone
  same       how many of its next lines are answered as in the order before
  mark TEXT  TEXT decides what it does next: 'known' where it said so before on such a bus, and its run is left

Where something doesn't hold that the scene expects, the answer is 'unmet', the line's number, and what is there instead.

Exit status with --every:
  0  every order was tried that was to be, and all holds
  1  not every one was, or a line of the program had no form or wasn't the one that was due
  2  the scene or the lines were not read to their end, and standard error says why
  3  in an order something doesn't hold

docs/DRIVING.md has all of it, and docs/ORDERS.md how to test a program so; clients/ has clients in Python and C.";

/// What `draw --help` says at its end.
const DRAWING: &str = "\
Each line of the script that isn't empty has a row: the line, the symbols that it sent with SCL and SDA, and what it
printed. A box has the colour of whoever drives SDA: the controller, a target, both, or nobody.

docs/PICTURES.md says more.";

/// What `explore --help` says at its end.
const EXPLORING: &str = "\
The file is a script with blocks. The lines of a block's tracks happen in any interleaving:

  any                 a block begins
  anywhere t          in each frame of the block, t may lose power at any bit
  always not t gone   this holds at the block's start and after each of its lines, in every order
  track               the block's next track begins
  close               the block ends, all of whose lines have gone
  expect waiting 0    this holds here, after the line before, in every order

If all of it holds in every order, the number of orders is printed, and each end that they lead to. Otherwise the output is a
script that leads to what doesn't hold. With --jobs N several threads find the same sooner. With --quiet no end is printed.
With --by FACT the ends are grouped by whether FACT holds there, and each group has an example.

Exit status:
  0  every order was tried, and all holds
  1  not answered: the last line is 'refused' and why
  2  the file was not read to its end, and standard error says why
  3  in an order something doesn't hold

docs/EXPLORING.md has all of it; examples/explore/ has files.";

/// The words of a text.
pub(crate) fn text_of(help: Help) -> &'static str {
    match help {
        Help::Script => TEACHING,
        Help::Driving => DRIVING,
        Help::Drawing => DRAWING,
        Help::Exploring => EXPLORING,
    }
}
