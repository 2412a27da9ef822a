//! What the actions run on beside their devices.

/// Memory and threads of the process, and the gate of the jobs that decode words.
#[derive(Drop)]
pub struct Host<'a, T, G> {
    /// The runtime.
    pub rt: &'a T,
    /// What each job passes before it decodes its word.
    pub gate: &'a G,
}
