/// The value of a constant expression (JLS 15.28).
#[derive(Clone, Copy)]
pub enum Value {
    Int(i32),
    Bool(bool),
}
