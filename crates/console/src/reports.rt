// Report lines read: `report=slot,kind` at the start of a text. What a report does to a run is in executive.
ghost use Rattle.std.specs.Prelude.{◌≡◌, ◌==◌, position};
ghost use Rattle.console.specs.Run.{kind_in, report_in};
ghost use Rattle.console.specs.Reports.{report_at};

use entries::Kind;
use executive::Report;

#[tactic(auto, using(crate::specs::Reports::kind_none, crate::specs::Reports::kind_three, crate::specs::Reports::kind_four), unfolding(crate::specs::Run::kind_in, lines::specs::Lines::same_bytes))]
fn kind_in(s: &[u8]) -> Option<Kind>
    ensures { result ≡ kind_in s.now }
{
    match s {
        b"end" => Some(Kind::End),
        b"more" => Some(Kind::More),
        b"none" => Some(Kind::None),
        _ => None,
    }
}

// Where the first comma stands.
fn first_comma(s: &[u8]) -> Option<usize>
    ensures { result ≡ position (λ b. b == 44) s.now }
{
    s.iter().position(|b| *b == b',')
}

// The report that the value is: its slot stands before the first comma, its kind after it.
#[tactic(auto, using(crate::specs::Reports::report_steps, crate::specs::Reports::rest_after))]
fn report_in(s: &[u8]) -> Option<Report>
    ensures { result ≡ report_in s.now }
{
    let comma = first_comma(s)?;
    let slot = lines::reading::read_number(&s[..comma])?;
    let kind = kind_in(&s[comma + 1..])?;
    Some(Report { slot, kind })
}

// The report on the first line of the text, and the first byte of the next line.
#[tactic(auto, using(lines::specs::ReadingLaws::field_steps))]
pub(crate) fn report_field(text: &[u8]) -> Option<(Report, usize)>
    ensures { result ≡ report_at text.now }
{
    let value = line_reader::find_value(text, 0, b"report=")?;
    let report = report_in(line_reader::part_from(text, value.start, value.len))?;
    Some((report, value.next))
}
