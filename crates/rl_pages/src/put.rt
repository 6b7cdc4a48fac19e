// Lines behind what a slice of pages holds; what has no room is left out.
ghost use Rattle.std.specs.Prelude.{◌≡◌, ◌+◌, ◌≤◌, length, replicate};
ghost use Rattle.rl_spec.specs.Pages.{spaces, lines_bytes};
ghost use Rattle.rl_pages.specs.Added.{Adds};

use rl_bytes::part;
use rl_columns::put_blank_line;
use rl_text_out::put_text;

// Answers the place after the text.
pub fn put_behind(pages: &mut [u8], at: usize, text: &[u8]) -> usize
    requires at_bound { at ≤ 1099511627776 }
    requires text_len_bound { length text.now ≤ 292 }
    ensures adds { Adds pages.old at text.now pages.new result }
    ensures value { result ≡ at + length text.now }
{
    put_text(pages, at, text);
    at + text.len()
}

// The lines of spaces that fill the last page.
pub fn put_blanks(pages: &mut [u8], at: usize, count: u32) -> usize
    requires at_bound { at ≤ 549755813888 }
    requires count_bound { count ≤ 60 }
    ensures adds { Adds pages.old at (lines_bytes (replicate count (spaces 72))) pages.new result }
    ensures upper_bound { result ≤ at + 17520 }
{
    let mut line = [0u8; 292];
    let n = put_blank_line(&mut line);
    let mut place = at;
    for _ in 0..count {
        place = put_behind(pages, place, part(&line, 0, n));
    }
    place
}
