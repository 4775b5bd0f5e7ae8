ghost use Rattle.std.specs.Prelude.{◌≡◌, ◌++◌, OnOk};
ghost use Rattle.std.specs.List.{flat_map};
ghost use Rattle.i3c_wave.specs.Dump.{in_full};
ghost use Rattle.i3c_wave.specs.Scripts.{octal_text, script_preamble, string_byte, string_text};

use crate::content::Content;
use crate::wave::PLAIN_PREAMBLE;
use i3c_text::Text;
use std::alloc::AllocError;

/// What stands for a script's line in a dump, and for what it printed.
const LINE: u8 = b'l';

const SERVED: u8 = b'p';

/// What a script's dump has before its first symbol. A text is a variable of GTKWave's kind `string`.
const PREAMBLE: &[u8] = b"$version i3cbus wave $end
$timescale 1 ns $end
$scope module i3c $end
$var wire 1 c scl $end
$var wire 1 d sda $end
$var string 1 s symbol $end
$var real 64 f frame $end
$var string 1 l line $end
$var string 1 p served $end
$upscope $end
$enddefinitions $end
#0
1c
1d
r0 f
#1000
";

/// Appends what a script's dump has before its first symbol.
pub fn push_script_preamble(content: Content, text: &mut Text) -> Result<(), AllocError>
    ensures { OnOk result (text.new ≡ text.old ++ script_preamble content) }
{
    match content {
        Content::Full => text.push(PREAMBLE),
        Content::Wires => text.push(PLAIN_PREAMBLE),
    }
}

/// Appends that a script's line is this from now on, unless the dump is plain.
pub fn push_script_line(content: Content, line: &[u8], text: &mut Text) -> Result<(), AllocError>
    ensures { OnOk result (text.new ≡ text.old ++ in_full content (string_text 108 line.now)) }
{
    match content {
        Content::Full => push_string(LINE, line, text),
        Content::Wires => Ok(()),
    }
}

/// Appends that a line printed this, unless the dump is plain.
pub fn push_served(content: Content, printed: &[u8], text: &mut Text) -> Result<(), AllocError>
    ensures { OnOk result (text.new ≡ text.old ++ in_full content (string_text 112 printed.now)) }
{
    match content {
        Content::Full => push_string(SERVED, printed, text),
        Content::Wires => Ok(()),
    }
}

/// Appends that a string variable has this value from now on.
fn push_string(name: u8, value: &[u8], text: &mut Text) -> Result<(), AllocError>
    ensures { OnOk result (text.new ≡ text.old ++ string_text name value.now) }
{
    text.push(b"s")?;
    push_value(value, text)?;
    text.push(&[b' ', name, b'\n'])
}

/// Appends the value of a string, in which spaces and other bytes that aren't printed are octal.
fn push_value(value: &[u8], text: &mut Text) -> Result<(), AllocError>
    ensures { OnOk result (text.new ≡ text.old ++ flat_map string_byte value.now) }
{
    let mut rest = value;
    while let [byte, more @ ..] = rest {
        push_byte(*byte, text)?;
        rest = more;
    }
    Ok(())
}

/// Appends a byte of a string.
fn push_byte(byte: u8, text: &mut Text) -> Result<(), AllocError>
    ensures { OnOk result (text.new ≡ text.old ++ string_byte byte) }
{
    if byte < 33 || byte > 126 || byte == b'\\' {
        push_octal(byte, text)
    } else {
        text.push(&[byte])
    }
}

/// Appends a byte by its three octal digits.
fn push_octal(byte: u8, text: &mut Text) -> Result<(), AllocError>
    ensures { OnOk result (text.new ≡ text.old ++ octal_text byte) }
{
    text.push(&[
        b'\\',
        b'0' + byte / 64,
        b'0' + byte / 8 % 8,
        b'0' + byte % 8,
    ])
}
