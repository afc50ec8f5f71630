// Laws of the definitions, each the contract of a function that does nothing.
ghost use Rattle.mirror_devices.specs.Statements.{UpdatesAreFound};

/// Of each status update that is sent the flushed position is found.
pub fn updates_are_found()
    ensures { UpdatesAreFound }
{}
