//! The processors of texts: each takes one file, and works on its content.
#![tactic(auto)]

mod extract_text;
mod growth;
mod modify_bytes;
mod parting;
mod passing;
mod pieces;
mod replace_text;
mod route_on_content;
mod segment_content;
mod split_text;
mod template;

pub use extract_text::ExtractText;
pub use modify_bytes::ModifyBytes;
pub use replace_text::ReplaceText;
pub use route_on_content::RouteOnContent;
pub use segment_content::SegmentContent;
pub use split_text::SplitText;

/// The place of the relationship that some of them name first.
const SUCCESS: u16 = 0;

/// The place of the relationship to which a ReplaceText gives up.
const FAILURE: u16 = 1;
