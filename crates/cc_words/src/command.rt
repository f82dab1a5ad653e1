// The commands, and what the words of one say.

/// What the program can be asked to do.
#[derive(Clone, Copy, Debug, PartialEq, Eq)]
pub enum Command {
    /// Compiles a file and executes it.
    Run,
    /// Compiles a file.
    Check,
    /// Compiles a file and stores its image.
    Build,
    /// Prints the listing of an image.
    Dump,
    /// Verifies an image.
    Verify,
    /// Compiles a file and executes the meaning of its source.
    Mean,
}

/// A command and what its words say.
#[derive(Clone, Copy, Debug)]
pub struct Request<'a> {
    pub command: Command,
    /// The name of its file.
    pub file: &'a str,
    /// How many instructions a program may execute; for the meaning of a source, how many turns each run of a loop may make.
    pub bound: u32,
    /// The arguments of the program.
    pub arguments: &'a [String],
}
