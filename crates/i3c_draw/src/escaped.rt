ghost use Rattle.std.specs.Prelude.{◌≡◌, ◌++◌, OnOk};
ghost use Rattle.i3c_draw.specs.Escaped.{control_text, escaped, escaped_byte, printed_byte};

use i3c_text::Text;
use std::alloc::AllocError;

/// Appends a text as XML has it. The appended text is printed ASCII without `<` and `>`, and each `&` in it begins the name
/// or the number of a character.
pub fn push_escaped(bytes: &[u8], text: &mut Text) -> Result<(), AllocError>
    ensures { OnOk result (text.new ≡ text.old ++ escaped bytes.now) }
{
    let mut rest = bytes;
    while let [byte, more @ ..] = rest {
        push_byte(*byte, text)?;
        rest = more;
    }
    Ok(())
}

/// Appends a byte.
pub(crate) fn push_byte(byte: u8, text: &mut Text) -> Result<(), AllocError>
    ensures { OnOk result (text.new ≡ text.old ++ escaped_byte byte) }
{
    if byte < 32 {
        push_control(byte, text)
    } else if byte > 126 {
        text.push(b"&#xFFFD;")
    } else {
        push_printed(byte, text)
    }
}

/// Appends the picture of a control byte.
fn push_control(byte: u8, text: &mut Text) -> Result<(), AllocError>
    ensures { OnOk result (text.new ≡ text.old ++ control_text byte) }
{
    text.push(b"&#x24")?;
    text.push_byte(byte)?;
    text.push(b";")
}

/// Appends a printed byte.
fn push_printed(byte: u8, text: &mut Text) -> Result<(), AllocError>
    ensures { OnOk result (text.new ≡ text.old ++ printed_byte byte) }
{
    if byte == b'&' {
        text.push(b"&amp;")
    } else if byte == b'<' {
        text.push(b"&lt;")
    } else if byte == b'>' {
        text.push(b"&gt;")
    } else {
        text.push(&[byte])
    }
}
