//! What ties the runs of a plan to the circuit from which it was made.

ghost use Rattle.local_engine.specs.Inputs.{BristolPlansTakeInputs, MixedPlansTakeInputs};
ghost use Rattle.local_engine.specs.Told.{BristolOutputsAreTold, MixedOutputsAreTold};

/// What a party is told in plain is cut into the outputs of the plain evaluation of a mixed circuit that it is told.
pub fn mixed_outputs_are_told()
    ensures { MixedOutputsAreTold }
{}

/// What a party is told in plain is cut into the outputs of the plain evaluation of a circuit in Bristol Fashion.
pub fn bristol_outputs_are_told()
    ensures { BristolOutputsAreTold }
{}

/// The plan of a mixed circuit takes the inputs of the circuit, each from its party.
pub fn mixed_plans_take_inputs()
    ensures { MixedPlansTakeInputs }
{}

/// The plan of a circuit in Bristol Fashion takes the inputs of the circuit, each from its party.
pub fn bristol_plans_take_inputs()
    ensures { BristolPlansTakeInputs }
{}
