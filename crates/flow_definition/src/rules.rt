//! The rules, one for each way to be wrong: where in an object each is broken first.
mod connected;
mod ends;
mod fields;
mod ids;
mod limits;
mod properties;

pub(crate) use connected::{not_of_source, unconnected};
pub(crate) use ends::unknown_end;
pub(crate) use fields::{bad_number, misshapen_field, missing_field, unknown_field};
pub(crate) use ids::doubled_id;
pub(crate) use limits::{too_many, too_many_own};
pub(crate) use properties::{bad_number_property, bad_property, missing_property, unknown_type};
