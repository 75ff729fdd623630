//! What threads may share.
use machine_model::Flow;

/// Threads may share a flow, with the patterns that stand in it: the bound of this call's callee says so.
pub fn threads_may_share(flow: &Flow) {
    take_shared(flow);
}

fn take_shared<T: Sync>(_value: &T) {}
