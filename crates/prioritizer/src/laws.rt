//! What holds of every order, for proofs above.
ghost use Rattle.prioritizer.specs.Laws.{OrdersAreTotal, OrdersSort, OnlyOneArrivalTies, FirstTellerDecides, WrittenNumbersRead, PlusAndZerosTellNothing};

/// Each order is a total one, and may sort.
pub fn orders_are_total()
    ensures total { OrdersAreTotal }
    ensures sorts { OrdersSort }
{}

/// Files of different arrival numbers never tie.
pub fn only_one_arrival_ties()
    ensures { OnlyOneArrivalTies }
{}

/// A file goes first exactly where the first prioritizer that tells the two apart puts it first, or where
/// none does and it arrived first.
pub fn first_teller_decides()
    ensures { FirstTellerDecides }
{}

/// What std writes of an `i64` is the number of that value in `PriorityAttribute`, and a `+` or zeros before
/// digits change nothing.
pub fn numbers_go_by_value()
    ensures written { WrittenNumbersRead }
    ensures padded { PlusAndZerosTellNothing }
{}

#[cfg(test)]
mod tests {
    use super::*;

    #[test]
    fn laws_can_be_called() {
        orders_are_total();
        only_one_arrival_ties();
        first_teller_decides();
        numbers_go_by_value();
    }
}
