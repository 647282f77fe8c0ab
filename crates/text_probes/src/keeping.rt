// The entries of a text's lines, kept in lent lists.
ghost use Rattle.std.specs.Prelude.{◌≡◌, false, length, set};
ghost use Rattle.card_entries.specs.Fault.{pair};
ghost use Rattle.text_probes.specs.Testing.{has_zero};
ghost use Rattle.text_probes.specs.Listing.{one_of, two_of};
ghost use Rattle.text_probes.specs.Keeping.{closed, closed_for};

use crate::line::{Marked, Probe};

// Place one of an entry of what is listed.
fn one_of(listed: Marked) -> u16
    requires { has_zero listed ≡ false }
    ensures { result ≡ one_of listed }
{
    match listed {
        Marked::Bare(p) | Marked::Two(p, _) | Marked::Run(p, _) => p - 1,
    }
}

// Place two of an entry of what is listed on a pair list.
fn other_of(listed: Marked) -> u16
    requires { has_zero listed ≡ false }
    ensures { result ≡ two_of pair listed }
{
    match listed {
        Marked::Bare(_) => card_entries::NO_PLACE,
        Marked::Two(_, q) | Marked::Run(_, q) => q - 1,
    }
}

// Puts the entry of line e, from 0, where there is room for it.
pub fn keep(e: usize, t: Probe, words: &mut [u32], ones: &mut [u16], twos: &mut [u16])
    requires { (length ones.old ≡ length words.old) × (length twos.old ≡ length words.old) × (has_zero t.listed ≡ false) }
    ensures { (words.new ≡ set words.old e t.word) × (ones.new ≡ set ones.old e (one_of t.listed))
        × (twos.new ≡ set twos.old e (two_of pair t.listed)) }
{
    if e < words.len() {
        words[e] = t.word;
        ones[e] = one_of(t.listed);
        twos[e] = other_of(t.listed);
    }
}

// Makes each entry that has one place a run of one place.
fn close(ones: &[u16], twos: &mut [u16])
    requires { length twos.old ≡ length ones.now }
    ensures { twos.new ≡ closed ones.now twos.old }
{
    for (e, two) in twos.iter_mut().enumerate() {
        if *two == card_entries::NO_PLACE {
            *two = ones[e];
        }
    }
}

// The same on a list of this kind: on a span list "a bare `7` means 7-7", on a pair list nothing changes.
pub fn close_for(kind: usize, ones: &[u16], twos: &mut [u16])
    requires { length twos.old ≡ length ones.now }
    ensures { twos.new ≡ closed_for kind ones.now twos.old }
{
    if kind == card_entries::SPAN {
        close(ones, twos);
    }
}
