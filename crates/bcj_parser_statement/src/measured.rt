ghost use Rattle.std.specs.Prelude.{◌≡◌};

/// What was read, with its height. To give it up is one call, whatever it holds.
pub struct Measured<T> {
    pub value: T,
    pub height: u32,
}

impl<T: Drop> Drop for Measured<T> {
    fn drop(self) {
        let Measured {
            value: _value,
            height: _height,
        } = self;
    }
}

impl<T> Measured<T> {
    pub fn into_value(self) -> T
        ensures { result ≡ self.value }
    {
        let Measured {
            value,
            height: _height,
        } = self;
        value
    }
}
