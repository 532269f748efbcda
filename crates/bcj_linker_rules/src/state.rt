/// How far the initialisation of a class is (JLS 12.4.2, JVMS 5.5).
#[derive(Clone, Copy)]
pub enum ClassState {
    /// Not begun, and not linked.
    Fresh,
    InProgress,
    Ready,
    /// Its initialiser threw.
    Erroneous,
}
