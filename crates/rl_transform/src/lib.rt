// Transforms a body's returns: rl-resolver's transform_returns, transform_branch and transform_statement.
#![tactic(auto)]

mod cycle;
mod kinds;
mod rebuild;

pub use cycle::transform_returns;
use rl_records::ImageRef;
use rl_spec::Interval;

// What a transform reads: an image, the schema's rows, and the ensures clauses of the function at hand.
#[derive(Clone, Copy)]
pub struct Walk<'a> {
    pub image: ImageRef<'a, 'a>,
    pub rows: &'a [u64],
    pub ensured: Interval,
}
