ghost use Rattle.message_demux.specs.Runs.{NoneRefused, KeepsMessages, OrderIsNothing};

/// None of a list of messages is refused, whatever their order, exactly where each fits an expected
/// message and no slot has two payloads.
pub fn none_is_refused()
    ensures { NoneRefused }
{}

/// An inbox that refused none of a list of messages keeps their payloads, and no others.
pub fn keeps_the_messages()
    ensures { KeepsMessages }
{}

/// What an inbox keeps doesn't depend on the order of the messages or on repeats, where none is refused.
pub fn order_is_nothing()
    ensures { OrderIsNothing }
{}
