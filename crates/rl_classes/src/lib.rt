// Classes of texts: texts have the same class exactly where their bytes are the same, so that names are compared by one number.
// The texts form a prefix tree. A text's link names its parent, an earlier text, and the place of their first mismatch. A search
// for a text goes down from parent to child: it meets only texts that have its own link, and compares from that place on. The
// same text was sought the same way before, so it is met. The work is linear in the texts' bytes, beside one link for each pair.
#![tactic(auto)]

ghost use Rattle.std.specs.Prelude.{◌≡◌, List, ℕ, ◌%◌, ◌<◌, ◌≤◌, length};
ghost use Rattle.rl_spec.specs.Values.{same_text};
ghost use Rattle.rl_spec.specs.Image.{text_of};
ghost use Rattle.rl_records.specs.Found.{found_with};
ghost use Rattle.rl_names.specs.Names.{Classes};
ghost use Rattle.rl_classes.specs.Classes.{ClassOfEach};
ghost use Rattle.rl_classes.specs.Links.{mismatch, next_link, Linked, PlaceOf};

use rl_bytes::{get_or, part, put};
use rl_records::ImageRef;
use rl_text_order::{same_text, u64_be_at};

// The first place from `at` on where two texts differ, or one ends, byte by byte.
fn mismatch_bytes(a: &[u8], b: &[u8], at: usize) -> usize
    ensures { result ≡ mismatch a.now b.now at }
{
    for i in at..a.len() {
        if b.len() <= i || a[i] != b[i] {
            return i;
        }
    }
    at.max(a.len())
}

// The same by words. The loop stays a `while`: with `step_by(8)` each of its two ways out would be a return inside it.
fn mismatch(a: &[u8], b: &[u8], at: usize) -> usize
    ensures { result ≡ mismatch a.now b.now at }
{
    let n = a.len().min(b.len());
    let mut i = at;
    while i < n && 8 <= n - i && u64_be_at(a, i) == u64_be_at(b, i) {
        i += 8;
    }
    mismatch_bytes(a, b, i)
}

// Whether two texts are the same, where `to` is their first mismatch from `at` on.
fn is_same(a: &[u8], b: &[u8], at: usize, to: usize) -> bool
    requires { to ≡ mismatch a.now b.now at }
    ensures { result ≡ same_text a.now b.now }
{
    if to < a.len() || to < b.len() {
        return false;
    }
    same_text(part(a, 0, at), part(b, 0, at))
}

// The link of a search that has met the u-th text, a: that text is the parent where the first mismatch is later.
#[tactic(auto, unfolding(crate::specs::Links::next_link))]
fn next_link(a: &[u8], b: &[u8], u: u16, link: u64, to: usize) -> u64
    requires { to ≡ mismatch a.now b.now (link % 65536) }
    ensures { result ≡ next_link a.now b.now u link }
{
    if (to as u64) <= link % 65536 {
        return link;
    }
    ((u as u64) + 1) * 65536 + (to as u64) % 65536
}

// The class of a text, and its link.
#[derive(Drop)]
struct Place {
    class: u16,
    link: u64,
}

// Searches for the first text that is the same as the t-th.
fn find(image: ImageRef, links: &[u64], t: u16) -> Place
    requires { t < image.counts.texts }
    ensures { (p : List ℕ) → Linked (text_of (found_with image.entry p)) links.now t → PlaceOf (text_of (found_with image.entry p)) links.now t result.class result.link }
{
    let text = image.text(t);
    let mut link = 0;
    if text.is_empty() {
        return Place { class: 0, link };
    }
    for u in 0..t {
        if get_or(links, u as usize, 0) != link {
            continue;
        }
        let other = image.text(u);
        let at = (link % 65536) as usize;
        let to = mismatch(other, text, at);
        if is_same(other, text, at, to) {
            return Place { class: u + 1, link };
        }
        link = next_link(other, text, u, link, to);
    }
    Place { class: t + 1, link }
}

// Gives each text its class, where both slices have a word for each text. `links` is scratch: what it holds then is left open.
pub fn text_classes(image: ImageRef, links: &mut [u64], classes: &mut [u16])
    ensures by_index { (p : List ℕ) → image.entry.counts.texts ≤ length links.old → image.entry.counts.texts ≤ length classes.old → ClassOfEach (text_of (found_with image.entry p)) classes.new }
    ensures by_index_2 { (p : List ℕ) → image.entry.counts.texts ≤ length links.old → image.entry.counts.texts ≤ length classes.old → Classes (text_of (found_with image.entry p)) classes.new }
{
    classes.fill(0);
    for t in 0..image.counts.texts {
        let place = find(image, links, t);
        put(links, t as usize, place.link);
        put(classes, t as usize, place.class);
    }
}
