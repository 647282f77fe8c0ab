// Some of a list's entries as a number, with a binary digit for each: the marks of a list, and those of it that are picked.
ghost use Rattle.std.specs.Prelude.{◌≡◌, ◌&&◌, ◌%◌, ◌^◌, ◌<◌, eqb, length};
ghost use Rattle.span_memory.specs.Memory.{Below};
ghost use Rattle.span_steps.specs.Steps.{agrees};
ghost use Rattle.span_narrow.specs.Digits.{picked, FirstOf, Apart, MarkedBy, MarkedWith};
ghost use Rattle.span_narrow.specs.States.{agreeing};

// Who is chosen of a list, and whether another could have been.
#[derive(Clone, Copy)]
pub struct Pick {
    pub e: usize,
    pub more: bool,
}

// Whether the last digit of c is 1, and the word w may stand at the place i, after a word whose last letters are `want`.
fn is_picked(c: u8, w: u32, i: usize, want: u32) -> bool
    ensures { result ≡ (eqb (c % 2) 1 && agrees i want w) }
{
    c % 2 == 1 && span_steps::agrees(w, i, want)
}

// Of the entries of the list those that c picks and whose word agrees: the first, where there is one, and whether there is another.
pub fn choose(list: &[u16], words: &[u32], c: u8, i: usize, want: u32) -> Option<Pick>
    requires { Below list.now (length words.now) }
    ensures { FirstOf (agreeing words.now i want (picked c list.now)) result }
{
    let mut chosen: Option<Pick> = None;
    let mut rest = c;
    for e in list.iter().rev() {
        let e = usize::from(*e);
        if is_picked(rest, words[e], i, want) {
            chosen = Some(Pick {
                e,
                more: chosen.is_some(),
            });
        }
        rest /= 2;
    }
    chosen
}

// Marks the entries of the list by the digits of b.
pub fn spread(list: &[u16], marks: &mut [u8], b: usize)
    requires below { Below list.now (length marks.old) }
    requires apart { Apart list.now }
    requires b_bound { b < 2 ^ length list.now }
    ensures { MarkedBy list.now marks.old b marks.new }
{
    let mut rest = b;
    for e in list.iter().rev() {
        marks[usize::from(*e)] = (rest % 2) as u8;
        rest /= 2;
    }
}

// Marks each entry of the list with v.
pub fn mark_list(list: &[u16], marks: &mut [u8], v: u8)
    requires { Below list.now (length marks.old) }
    ensures { MarkedWith list.now marks.old v marks.new }
{
    for e in list {
        marks[usize::from(*e)] = v;
    }
}
