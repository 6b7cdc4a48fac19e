// The reports of an image's calls as lines and as messages, and its texts. An image is opened once; each call is proved once; each of its
// lines is put by itself.
#![tactic(auto)]

mod lines;
mod messages;
mod opened;
mod texts;

pub use lines::{Lines, Reported, lines_of, lines_with, put_refused, violation_at};
pub use messages::message;
pub use opened::{OpenImage, open};
pub use texts::text;
