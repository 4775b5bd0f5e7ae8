ghost use Rattle.std.specs.Prelude.{◌≡◌, [], ◌∷◌, drop, length, MatchOption, OnOk};
ghost use Rattle.std.specs.List.{flat_map};
ghost use Rattle.i3c_script.specs.Framing.{whole_frames};
ghost use Rattle.i3c_script.specs.Hearing.{all_heard};
ghost use Rattle.i3c_script.specs.Pieces.{frames_pieces, symbols_pieces};

use crate::piece::Listener;
use crate::symbols::hear_line;
use i3c_frame::Symbol;
use std::alloc::AllocError;

/// The last `count` whole frames of some symbols, the oldest first, a line for each.
pub(crate) fn hear_frames<L: Listener>(
    symbols: &[Symbol],
    count: usize,
    listener: &mut L,
) -> Result<(), AllocError>
    ensures { OnOk result (listener.new ≡ all_heard L.heard listener.old (frames_pieces count symbols.now)) }
{
    let earlier = frame_count(symbols).saturating_sub(count);
    hear_each(behind_frames(symbols, earlier), listener)
}

/// How many whole frames there are in some symbols.
fn frame_count(symbols: &[Symbol]) -> usize
    ensures { result ≡ length (whole_frames symbols.now) }
{
    let mut count = 0;
    let mut rest = symbols;
    while let Some((_, more)) = first_frame(rest) {
        count += 1;
        rest = more;
    }
    count
}

/// The symbols behind the first `count` whole frames.
fn behind_frames(symbols: &[Symbol], count: usize) -> &[Symbol]
    ensures { whole_frames result.now ≡ drop count (whole_frames symbols.now) }
{
    let mut rest = symbols;
    for _ in 0..count {
        if let Some((_, more)) = first_frame(rest) {
            rest = more;
        }
    }
    rest
}

/// Each whole frame of some symbols on a line.
fn hear_each<L: Listener>(symbols: &[Symbol], listener: &mut L) -> Result<(), AllocError>
    ensures { OnOk result (listener.new ≡ all_heard L.heard listener.old (flat_map symbols_pieces (whole_frames symbols.now))) }
{
    let mut rest = symbols;
    while let Some((frame, more)) = first_frame(rest) {
        hear_line(frame, listener)?;
        rest = more;
    }
    Ok(())
}

/// The first whole frame of some symbols, and the symbols behind it.
fn first_frame(symbols: &[Symbol]) -> Option<(&[Symbol], &[Symbol])>
    ensures { MatchOption result (whole_frames symbols.now ≡ []) (λ parts. whole_frames symbols.now ≡ parts.0.now ∷ whole_frames parts.1.now) }
{
    // the symbols from the START of the open frame on, and how many of them were passed; outside a frame, none was
    let mut begun = symbols;
    let mut passed = 0;
    let mut rest = symbols;
    while let [symbol, more @ ..] = rest {
        match symbol {
            Symbol::Start => {
                begun = rest;
                passed = 1;
            }
            _ if passed == 0 => begun = more,
            Symbol::Stop => return Some(begun.split_at(passed + 1)),
            _ => passed += 1,
        }
        rest = more;
    }
    None
}
