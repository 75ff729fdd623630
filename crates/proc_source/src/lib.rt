//! The processors at both ends of a flow: files come in by `GetFile` and `GenerateFlowFile`, and go out by `PutFile`.
#![tactic(auto)]

mod generate_flow_file;
mod get_file;
mod put_file;

pub use generate_flow_file::GenerateFlowFile;
pub use get_file::GetFile;
pub use put_file::PutFile;

/// The places of the relationships that these processors name.
const SUCCESS: u16 = 0;

const FAILURE: u16 = 1;
