// The theorem about a pipe: the contract of a function with an empty body.

ghost use Rattle.headline.specs.node_moves.Pipe.{PipeCarries, PipeGives, PipeGivesNext, PipeGrows};
ghost use Rattle.headline.specs.node_moves.Pipe.{PipeHasNoFault, PipeOpens};

/// States that packets written into a pipe come out of the cutter at its other end in order,
/// however the bytes between are split. None is lost, changed or duplicated, and the cutter finds
/// no fault.
pub fn pipes_are_in_order()
    ensures opens { PipeOpens }
    ensures grows { PipeGrows }
    ensures carries { PipeCarries }
    ensures gives { PipeGives }
    ensures next { PipeGivesNext }
    ensures no_fault { PipeHasNoFault }
{}
