ghost use Rattle.std.specs.Prelude.{◌≡◌};
ghost use Rattle.i3c_base.specs.Numbers.{kind_set};
ghost use Rattle.i3c_device.specs.Hearing.{named_kinds};

use bitflags::Flags;
use i3c_base::Kinds;
use i3c_word::Word;

/// Whether interrupts are among the kinds.
pub(crate) fn may_interrupt(kinds: Kinds) -> bool
    ensures { result ≡ (kind_set kinds).interrupt }
{
    kinds.contains(Kinds::INTERRUPT)
}

/// Whether role requests are among the kinds.
pub(crate) fn may_ask_role(kinds: Kinds) -> bool
    ensures { result ≡ (kind_set kinds).role }
{
    kinds.contains(Kinds::ROLE)
}

/// Whether joins are among the kinds.
pub(crate) fn may_join(kinds: Kinds) -> bool
    ensures { result ≡ (kind_set kinds).join }
{
    kinds.contains(Kinds::JOIN)
}

/// The kinds that a command's byte names; bits that stand for none are ignored.
pub(crate) fn named(words: &[Word]) -> Kinds
    ensures { kind_set result ≡ named_kinds words.now }
{
    match words.first() {
        Some(word) => Kinds::from_bits_retain(word.byte),
        None => Kinds::empty(),
    }
}
