// Bytes, appended to a text in a lent buffer. What has no room there is left out; the place counts it all the same.
#![tactic(auto)]

mod text;

pub use text::Text;
