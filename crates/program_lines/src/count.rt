// What the program `count_builds` prints for a card: one line, with the number of its builds or with the refusal.
ghost use Rattle.std.specs.Prelude.{◌≤◌, length};
ghost use Rattle.base_answers.specs.Answer.{given};
ghost use Rattle.card_entries.specs.Bounds.{most_entries};
ghost use Rattle.build_sequence.specs.Many.{two_to};
ghost use Rattle.base_text.specs.Text.{Printed};
ghost use Rattle.base_text.specs.Putting.{Put};
ghost use Rattle.program_lines.specs.CountLine.{count_line, CountReports};
ghost use Rattle.program_lines.specs.Rooms.{power_room};

// Room for the line; the longest is that of a refusal.
pub const LINE: usize = 50;

// The line of a card that has builds.
fn put_power(out: &mut [u8], k: usize) -> usize
    requires { power_room ≤ length out.old }
    ensures { Put (count_line (given (two_to k))) 0 out.old result out.new }
{
    let k_at = base_text::put_text(out, 0, b"builds 2^");
    base_text::put_end(out, k_at, k)
}

// The line is at the start of the buffer, whose later bytes are as they were; the answer is how many bytes it has.
pub fn report(card: &[u8], out: &mut [u8; LINE]) -> usize
    ensures { Printed (CountReports most_entries card.now) out.old result out.new }
{
    match build_count::count_card(card) {
        Ok(Some(k)) => put_power(out, k),
        Ok(None) => base_text::put_text(out, 0, b"builds 0\n"),
        Err(r) => base_text::put_refused(out, r.number(), r.place()),
    }
}
