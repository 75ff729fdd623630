//! The processors of attributes: each takes one file, and works on what is known of it.
#![tactic(auto)]

mod attributes_to_json;
mod cryptographic_hash_content;
mod duplicate_flow_file;
mod passing;
mod route_on_attribute;
mod taken;
mod update_attribute;

pub use attributes_to_json::AttributesToJson;
pub use cryptographic_hash_content::CryptographicHashContent;
pub use duplicate_flow_file::DuplicateFlowFile;
pub use route_on_attribute::RouteOnAttribute;
pub use update_attribute::UpdateAttribute;

/// The places of the relationships that these processors name.
const SUCCESS: u16 = 0;

const FAILURE: u16 = 1;
