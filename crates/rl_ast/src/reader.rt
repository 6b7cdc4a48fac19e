// The reader: the header, the sections, the whole.
ghost use Rattle.std.specs.Prelude.{◌≡◌, ◌+◌, ◌≤◌, length, cond, Ok};
ghost use Rattle.std.specs.Result.{IfOk};
ghost use Rattle.rl_ast.specs.Lists.{lists_from};
ghost use Rattle.rl_spec.specs.Answers.{refused};
ghost use Rattle.rl_spec.specs.Bytes.{past};
ghost use Rattle.rl_spec.specs.Schema.{count_of};
ghost use Rattle.rl_spec.specs.Read.{counts_of, counts_from, header_of, seen_by, keep, out_of, records_from, sections_from, body_of, content_of, answer_of, work_of, starts_of};

use rl_bytes::{get_or, is_past, put, u16_at, u32_at};
use rl_fields::Scope;
use rl_schema::{SECTIONS, count_in};
use rl_spec::{Accepted, ArenaNo, Cause, Counts, Next, Refusal, Section};

// The longest image, and the shortest work slice.
const LONGEST: usize = 65535;

const SHORTEST_WORK: usize = 8192;

// The largest counts that the header may have, in its order.
const LIMITS: [u16; 9] = [16384, 2048, 4096, 4096, 2048, 256, 256, 64, 256];

// Refuses where n bytes at a place run past the end.
#[tactic(auto, unfolding(rl_spec::specs::Bytes::past))]
fn have(image: &[u8], at: usize, n: usize) -> Result<(), Refusal>
    ensures step { result ≡ cond (past image.now at n) (refused Cause.BytesEnd at) (Ok tt) }
    ensures there { IfOk result (λ u. at + n ≤ length image.now) }
{
    if is_past(image, at, n) {
        return Err(Cause::BytesEnd.at(at));
    }
    Ok(())
}

#[tactic(auto, unfolding(rl_spec::specs::Read::counts_from))]
fn count_step(image: &[u8], limits: &[u16]) -> Result<Next, Refusal>
    ensures { result ≡ counts_from image.now limits.now 5 }
{
    let mut at = 5;
    for &most in limits {
        have(image, at, 2)?;
        if most < u16_at(image, at) {
            return Err(Cause::CountOverLimit.at(at));
        }
        at += 2;
    }
    Ok(Next { at, tall: 0 })
}

#[tactic(auto, unfolding(rl_spec::specs::Read::header_of, rl_spec::specs::Schema::limits))]
fn header(image: &[u8]) -> Result<Next, Refusal>
    ensures { result ≡ header_of image.now }
{
    have(image, 0, 1)?;
    if get_or(image, 0, 0) != 1 {
        return Err(Cause::WrongKind.at(0));
    }
    have(image, 1, 4)?;
    count_step(image, &LIMITS)
}

#[tactic(auto, unfolding(rl_spec::specs::Read::counts_of))]
fn header_counts(image: &[u8]) -> Counts
    ensures { result ≡ counts_of image.now }
{
    Counts {
        bytes: u16_at(image, 5),
        texts: u16_at(image, 7),
        lists: u16_at(image, 9),
        expressions: u16_at(image, 11),
        statements: u16_at(image, 13),
        parameters: u16_at(image, 15),
        clauses: u16_at(image, 17),
        functions: u16_at(image, 19),
        calls: u16_at(image, 21),
    }
}

// What the i-th record of a section may refer to. Number by number, for speed: a choice among whole values is a jump in each record.
fn seen_by(counts: Counts, own: Section, i: u16) -> Counts
    ensures { result ≡ seen_by counts own i }
{
    let node = matches!(own, Section::Expressions);
    let statement = matches!(own, Section::Statements);
    let either = node || statement;
    Counts {
        expressions: if node { i } else { counts.expressions },
        statements: if node {
            0
        } else if statement {
            i
        } else {
            counts.statements
        },
        parameters: if either { 0 } else { counts.parameters },
        clauses: if either { 0 } else { counts.clauses },
        functions: if either { 0 } else { counts.functions },
        calls: if either { 0 } else { counts.calls },
        ..counts
    }
}

// Keeps a number for the i-th record of a section; by `if`, for speed too.
fn keep_number(counts: Counts, own: Section, i: u16, x: u16, kept: &mut [u16])
    ensures { kept.new ≡ keep counts own i x kept.old }
{
    let first = usize::from(counts.expressions);
    let node = matches!(own, Section::Expressions);
    if node || matches!(own, Section::Statements) {
        put(kept, usize::from(i) + if node { 0 } else { first }, x);
    }
}

// The records of a section. The image, its counts and the two lists are parameters here and below: as fields behind a `&mut self`,
// each function would have to promise of all four that they stay the same ones.
#[tactic(auto, using(rl_fields::proofs::Turns::turn), unfolding(rl_spec::specs::Read::records_from))]
fn records(
    image: &[u8],
    counts: Counts,
    own: Section,
    start: usize,
    heights: &mut [u16],
    starts: &mut [u16],
) -> Result<Next, Refusal>
    requires image_len_bound { length image.now ≤ 65535 }
    ensures { out_of result heights.new starts.new ≡ records_from image.now counts own (count_of counts own) 0 start heights.old starts.old }
{
    let mut at = start;
    for i in 0..count_in(counts, own) {
        let scope = Scope {
            image,
            heights,
            starts,
            seen: seen_by(counts, own, i),
            own,
        };
        let next = scope.record(at)?;
        keep_number(counts, own, i, next.tall, heights);
        keep_number(counts, own, i, at as u16, starts);
        at = next.at;
    }
    Ok(Next { at, tall: 0 })
}

// The list entries: records of one kind whose only field may hold any number.
#[tactic(auto, using(rl_fields::proofs::Turns::turn), unfolding(crate::specs::Lists::lists_from))]
fn list_records(image: &[u8], count: u16, start: usize) -> Result<Next, Refusal>
    ensures { result ≡ lists_from image.now count start }
{
    let mut at = start;
    for _ in 0..count {
        have(image, at, 1)?;
        if image[at] != 3 {
            return Err(Cause::WrongKind.at(at));
        }
        have(image, at + 1, 2)?;
        at = at + 1 + 2;
    }
    Ok(Next { at, tall: 0 })
}

// The records of a section. For speed, list entries have their own loop, and the two large sections their own calls, which the
// compiler makes loops of their own of.
#[tactic(auto, using(crate::proofs::ListLaws::lists_section))]
fn section_records(
    image: &[u8],
    counts: Counts,
    own: Section,
    start: usize,
    heights: &mut [u16],
    starts: &mut [u16],
) -> Result<Next, Refusal>
    requires image_len_bound { length image.now ≤ 65535 }
    ensures { out_of result heights.new starts.new ≡ records_from image.now counts own (count_of counts own) 0 start heights.old starts.old }
{
    match own {
        Section::Lists => list_records(image, counts.lists, start),
        Section::Expressions => records(
            image,
            counts,
            Section::Expressions,
            start,
            heights,
            starts,
        ),
        Section::Statements => records(image, counts, Section::Statements, start, heights, starts),
        _ => records(image, counts, own, start, heights, starts),
    }
}

// The sections, in order.
#[tactic(auto, unfolding(rl_spec::specs::Read::sections_from))]
fn all_sections(
    image: &[u8],
    counts: Counts,
    sections: &[Section],
    start: usize,
    heights: &mut [u16],
    starts: &mut [u16],
) -> Result<Next, Refusal>
    requires image_len_bound { length image.now ≤ 65535 }
    ensures { out_of result heights.new starts.new ≡ sections_from image.now counts sections.now start heights.old starts.old }
{
    let mut at = start;
    for &own in sections {
        at = section_records(image, counts, own, at, heights, starts)?.at;
    }
    Ok(Next { at, tall: 0 })
}

// After the header: the text bytes, the sections, the end.
#[tactic(auto, unfolding(rl_spec::specs::Read::body_of, rl_spec::specs::Read::end_of, rl_spec::specs::Schema::sections))]
fn after_header(
    image: &[u8],
    counts: Counts,
    heights: &mut [u16],
    starts: &mut [u16],
) -> Result<Next, Refusal>
    requires image_len_bound { length image.now ≤ 65535 }
    ensures { out_of result heights.new starts.new ≡ body_of image.now counts heights.old starts.old }
{
    let size = usize::from(counts.bytes);
    have(image, 23, size)?;
    let end = all_sections(image, counts, &SECTIONS, 23 + size, heights, starts)?;
    if end.at < image.len() {
        return Err(Cause::BytesLeft.at(end.at));
    }
    Ok(end)
}

// The image's content, where its length is within the limit.
fn content(image: &[u8], heights: &mut [u16], starts: &mut [u16]) -> Result<Next, Refusal>
    requires image_len_bound { length image.now ≤ 65535 }
    ensures { out_of result heights.new starts.new ≡ content_of image.now heights.old starts.old }
{
    header(image)?;
    after_header(image, header_counts(image), heights, starts)
}

// Reads an image. Where it is accepted, the work slice holds the heights of the expressions and then of the statements, and
// `starts` the place where each of them starts; all else of both is 0.
pub fn read_starts(
    image: &[u8],
    work: &mut [u16],
    starts: &mut [u16; 6144],
) -> Result<Accepted, Refusal>
    ensures value { result ≡ answer_of image.now (length work.old) }
    ensures work_after { work.new ≡ work_of image.now (length work.old) }
    ensures starts_after { starts.new ≡ starts_of image.now (length work.old) }
{
    work.fill(0);
    starts.fill(0);
    if image.len() > LONGEST {
        return Err(Cause::ImageTooLong.into());
    }
    if work.len() < SHORTEST_WORK {
        return Err(Cause::WorkTooShort.into());
    }
    if let Err(refusal) = content(image, work, starts) {
        work.fill(0);
        starts.fill(0);
        return Err(refusal);
    }
    Ok(Accepted {
        arena: ArenaNo(u32_at(image, 1)),
        counts: header_counts(image),
    })
}

// THE READER: any bytes are read, or refused with a cause and a place.
pub fn read(image: &[u8], work: &mut [u16]) -> Result<Accepted, Refusal>
    ensures value { result ≡ answer_of image.now (length work.old) }
    ensures work_after { work.new ≡ work_of image.now (length work.old) }
{
    let mut starts = [0u16; 6144];
    read_starts(image, work, &mut starts)
}
