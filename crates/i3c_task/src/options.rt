ghost use Rattle.std.specs.Prelude.{◌≡◌, ◌++◌, ◌∷◌, [], ℕ, ◌^◌, ◌<◌, IfOk, IfSome, MatchOption, MatchResult, OnOk, map, option_map};
ghost use Rattle.std.specs.Str.Parse.{IsNumeral, digits_value};
ghost use Rattle.clap.specs.Words.{first_value, found_of};
ghost use Rattle.i3c_orders.specs.Numbers.{NamesNumber, NamesNumbers};
ghost use Rattle.i3c_task.specs.Options.{AllName, AreLegacies, IsDrawn, IsFlag, IsNumberIn, IsPartOf, IsWhich, NamesLegacy, NamesPart, NamesPortion, NamesTwo, legacy_texts, text_or, texts_of};

use crate::verb::{LEGACY, ORDER, PART, RANDOM, SEED};
use crate::words_fault::WordsFault;
use clap::ArgMatches;
use i3c_base::{Addr7, Addresses};
use i3c_explore::Part;
use i3c_orders::{Portion, Which};
use i3c_text::read_byte;
use std::alloc::{AllocError, Global};

/// The least and the most address of a legacy target.
const LEAST_LEGACY: u8 = 0x08;

const MOST_LEGACY: u8 = 0x77;

/// Whether a flag was given.
pub(crate) fn flag_given(given: &ArgMatches<'_>, name: &str) -> bool
    ensures { IsFlag (found_of given.now) name.now result }
{
    given.get_flag(name)
}

/// The text of an option, or this one where it wasn't given.
pub(crate) fn text_given<'a>(given: &ArgMatches<'a>, name: &str, without: &'a str) -> &'a str
    ensures { result.now ≡ text_or (found_of given.now) name.now without.now }
{
    given.get_str(name).unwrap_or(without)
}

/// The texts of all uses of an option.
pub(crate) fn texts_given<'a>(
    alloc: Global,
    given: &ArgMatches<'a>,
    name: &str,
) -> Result<Vec<&'a str>, AllocError>
    ensures { IfOk result (λ texts. map (λ text. text.now) texts.items ≡ texts_of (found_of given.now) name.now) }
{
    let mut texts = Vec::new(alloc);
    if let Some(given) = given.get_strs(name) {
        texts.extend_from_slice(given)?;
    }
    Ok(texts)
}

/// The number of an option, from its least to its most, or this one where it wasn't given. It is decimal digits alone.
pub(crate) fn number_given(
    given: &ArgMatches<'_>,
    name: &'static str,
    least: u64,
    most: u64,
    without: u64,
) -> Result<u64, WordsFault>
    ensures { MatchResult result
        (IsNumberIn least most without (first_value (found_of given.now) name.now))
        (λ fault. (fault ≡ WordsFault.Number name.entry) × ((n : ℕ) → IsNumberIn least most without (first_value (found_of given.now) name.now) n → ⊥)) }
{
    let Some(text) = given.get_str(name) else {
        return Ok(without);
    };
    match decimal(text) {
        Some(number) if least <= number && number <= most => Ok(number),
        _ => Err(WordsFault::Number(name)),
    }
}

/// The number of decimal digits.
fn decimal(text: &str) -> Option<u64>
    ensures { MatchOption result ((IsNumeral 10 text.now × (digits_value 10 text.now < 2 ^ 64)) → ⊥)
        (λ n. IsNumeral 10 text.now × (n ≡ digits_value 10 text.now)) }
{
    if text.starts_with('+') {
        return None;
    }
    match text.parse::<u64>() {
        Ok(number) => Some(number),
        Err(_) => None,
    }
}

/// The part that a text `K/N` names, or all orders without one.
pub(crate) fn part_given(text: Option<&str>) -> Result<Part, WordsFault>
    ensures { MatchResult result (IsPartOf (option_map (λ text. text.now) text.entry)) (λ fault. fault ≡ WordsFault.Part) }
{
    match text {
        Some(text) => part_of(text),
        None => Ok(Part::whole()),
    }
}

/// The part that a text `K/N` names.
fn part_of(text: &str) -> Result<Part, WordsFault>
    ensures { MatchResult result (NamesPart text.now) (λ fault. fault ≡ WordsFault.Part) }
{
    let (number, of) = two_of(text)?;
    match Part::new(number, of) {
        Some(part) => Ok(part),
        None => Err(WordsFault::Part),
    }
}

/// The part of a program's orders that a text `K/N` names.
fn portion_of(text: &str) -> Result<Portion, WordsFault>
    ensures { MatchResult result (NamesPortion text.now) (λ fault. fault ≡ WordsFault.Part) }
{
    let (number, of) = two_of(text)?;
    match Portion::new(number, of) {
        Some(portion) => Ok(portion),
        None => Err(WordsFault::Part),
    }
}

/// The two numbers of a text `K/N`.
fn two_of(text: &str) -> Result<(usize, usize), WordsFault>
    ensures { MatchResult result (λ two. NamesTwo text.now two.0 two.1) (λ fault. fault ≡ WordsFault.Part) }
{
    let Some((number, of)) = text.split_once('/') else {
        return Err(WordsFault::Part);
    };
    match (decimal(number), decimal(of)) {
        (Some(number), Some(of)) => Ok((number as usize, of as usize)),
        _ => Err(WordsFault::Part),
    }
}

/// Which orders a program is to meet. The parser takes one of these options at most.
pub(crate) fn which_given(alloc: Global, given: &ArgMatches<'_>) -> Result<Which, WordsFault>
    ensures { IfOk result (IsWhich (found_of given.now)) }
{
    if let Some(text) = given.get_str(ORDER) {
        return Ok(Which::One(numbers_of(alloc, text)?));
    }
    if let Some(text) = given.get_str(PART) {
        return Ok(Which::Part(portion_of(text)?));
    }
    match given.get_str(RANDOM) {
        Some(_) => drawn_given(given),
        None => Ok(Which::All),
    }
}

/// How many orders are to be drawn, and from which seed.
fn drawn_given(given: &ArgMatches<'_>) -> Result<Which, WordsFault>
    ensures { IfOk result (IsDrawn (found_of given.now)) }
{
    let count = number_given(given, RANDOM, 1, u64::MAX, 1)?;
    let seed = number_given(given, SEED, 0, u64::MAX, 0)?;
    Ok(Which::Drawn(count, seed))
}

/// The numbers of a text, with points between them, or none of a dash.
fn numbers_of(alloc: Global, text: &str) -> Result<Vec<usize>, WordsFault>
    ensures { IfOk result (λ numbers. NamesNumbers text.now numbers.items) }
{
    let mut numbers = Vec::new(alloc);
    if text == "-" {
        return Ok(numbers);
    }
    let mut rest = text;
    while let Some((first, others)) = cut_at_point(rest) {
        keep(&mut numbers, place_of(first)?)?;
        rest = others;
    }
    keep(&mut numbers, place_of(rest)?)?;
    Ok(numbers)
}

/// What stands before a text's first point, and what behind it.
fn cut_at_point(text: &str) -> Option<(&str, &str)>
    ensures { IfSome result (λ parts. text.now ≡ parts.0.now ++ 46 ∷ parts.1.now) }
{
    let (first, others) = text.split_once('.')?;
    Some((first, others))
}

/// Puts a number behind others.
fn keep(numbers: &mut Vec<usize>, number: usize) -> Result<(), AllocError>
    ensures { OnOk result (numbers.new.items ≡ numbers.old.items ++ number ∷ []) }
{
    numbers.push(number)?;
    Ok(())
}

/// One of these numbers.
fn place_of(text: &str) -> Result<usize, WordsFault>
    ensures { IfOk result (NamesNumber text.now) }
{
    match decimal(text) {
        Some(number) => Ok(number as usize),
        None => Err(WordsFault::Order),
    }
}

/// The addresses of legacy targets that were given.
pub(crate) fn legacies_given(given: &ArgMatches<'_>) -> Result<Addresses, WordsFault>
    ensures { MatchResult result (λ set. AreLegacies (legacy_texts (found_of given.now)) set.0)
        (λ fault. (fault ≡ WordsFault.Legacy) × (AllName (legacy_texts (found_of given.now)) → ⊥)) }
{
    match given.get_strs(LEGACY) {
        Some(texts) => legacies_of(texts),
        None => Ok(Addresses::new()),
    }
}

/// The addresses that texts name.
fn legacies_of(texts: &[&str]) -> Result<Addresses, WordsFault>
    ensures { MatchResult result (λ set. AreLegacies (map (λ text. text.now) texts.now) set.0)
        (λ fault. (fault ≡ WordsFault.Legacy) × (AllName (map (λ text. text.now) texts.now) → ⊥)) }
{
    let mut legacies = Addresses::new();
    let mut rest = texts;
    while let [text, more @ ..] = rest {
        legacies = legacies.with(legacy_address(text.as_bytes())?);
        rest = more;
    }
    Ok(legacies)
}

/// The address of two hex digits, if a legacy target may have it.
fn legacy_address(digits: &[u8]) -> Result<Addr7, WordsFault>
    ensures { MatchResult result (NamesLegacy digits.now) (λ fault. (fault ≡ WordsFault.Legacy) × ((a : ℕ) → NamesLegacy digits.now a → ⊥)) }
{
    let [high, low] = digits else {
        return Err(WordsFault::Legacy);
    };
    match read_byte(*high, *low) {
        Some(number @ LEAST_LEGACY..=MOST_LEGACY) => Addr7::new(number).or(Err(WordsFault::Legacy)),
        _ => Err(WordsFault::Legacy),
    }
}
