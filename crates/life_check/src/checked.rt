// What the check of a text gives.
use life_core::CoreProgram;
use life_rules::ListedDiag;
use life_sound::Accepted;

/// What the check of a text gives where it has a program that is checked.
#[derive(Drop)]
pub enum Checked {
    /// Nothing is diagnosed in the program, and no run of it uses anything null or dangling.
    Accepted(Accepted),
    /// Something is diagnosed in it.
    Refused {
        /// The program.
        program: CoreProgram,
        /// What is diagnosed, at least once, in the order of the lines, and each with its line.
        diagnostics: Vec<ListedDiag>,
    },
}
