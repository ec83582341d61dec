//! A law of what `convert` puts: a function that does nothing, with the law as its contract.
ghost use Rattle.convert_commands.specs.KeptGrids.{ConversionsKeepGrids};

/// The law that what is made of a words file none of whose frames has a misfit is a words file, over all layers, of what its frames
/// become. At the frame 2 f + 1 it shows what the file shows at f.
pub fn conversion_keeps_grids()
    ensures { ConversionsKeepGrids }
{}
