//! Laws of the order in which values are started. Each function states its law and does nothing.

ghost use Rattle.core_order.specs.Laws.{OrdersAreOne};

/// A unit has one order in which its values are started.
pub fn orders_are_one()
    ensures { OrdersAreOne }
{}
