/// The number of a type in the list of a mixture's heads.
#[derive(Clone, Copy)]
pub struct ClassId(pub u32);
