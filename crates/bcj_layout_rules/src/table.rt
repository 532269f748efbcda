/// The four tables of a class.
#[derive(Clone, Copy)]
pub enum Table {
    Ctable,
    Otable,
    Atable,
    Itable,
}
