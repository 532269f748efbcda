ghost use Rattle.std.specs.Prelude.{◌≡◌, ◌≢◌, ℕ, true, false, None};
ghost use Rattle.bcj_hier_rules.specs.Shapes.{is_method};
ghost use Rattle.bcj_hier_rules.specs.Heads.{IsIn, name_of};
ghost use Rattle.bcj_hier_rules.specs.Loading.{load_error, implements, is_interface};
ghost use Rattle.bcj_hier_rules.specs.Resolution.{field_within, interface_method_within};
ghost use Rattle.bcj_layout_rules.specs.Rows.{mixture_of};
ghost use Rattle.bcj_layout_resolution.specs.Places.{heads_in};
ghost use Rattle.bcj_layout_resolution.specs.Searches.{own_field, own_method, IsWithout};

use crate::resolver::Resolver;
use crate::sought::Sought;
use bcj_hier_rules::ClassId;
use bcj_names::Name;

impl Resolver {
    fn loads(&self, class: ClassId) -> bool
        requires there { IsIn (heads_in self.now) class }
        ensures loads { result ≡ true → load_error (mixture_of self.now) (name_of (heads_in self.now) class) ≡ None }
        ensures fails { result ≡ false → load_error (mixture_of self.now) (name_of (heads_in self.now) class) ≢ None }
    {
        match self.hier().load(class) {
            Ok(()) => true,
            Err(_) => false,
        }
    }

    fn is_loaded_interface(&self, class: ClassId) -> bool
        requires there { IsIn (heads_in self.now) class }
        ensures loads { result ≡ true → load_error (mixture_of self.now) (name_of (heads_in self.now) class) ≡ None }
        ensures interface { result ≡ true → is_interface (mixture_of self.now) (name_of (heads_in self.now) class) ≡ true }
    {
        self.loads(class) && self.record(class).head.interface
    }

    /// Whether a type stands above one that loads.
    fn reaches(&self, from: ClassId, class: ClassId) -> bool
        requires from_there { IsIn (heads_in self.now) from }
        requires there { IsIn (heads_in self.now) class }
        requires loads { load_error (mixture_of self.now) (name_of (heads_in self.now) from) ≡ None }
        ensures { load_error (mixture_of self.now) (name_of (heads_in self.now) class) ≡ None
            → result ≡ implements (mixture_of self.now) (name_of (heads_in self.now) from) (name_of (heads_in self.now) class) }
    {
        if self.loads(class) {
            self.hier().implements(from, class)
        } else {
            false
        }
    }

    fn has_field(&self, from: ClassId, class: ClassId, name: &Name, desc: &Name) -> bool
        requires from_there { IsIn (heads_in self.now) from }
        requires there { IsIn (heads_in self.now) class }
        requires loads { load_error (mixture_of self.now) (name_of (heads_in self.now) from) ≡ None }
        ensures { result ≡ false → IsWithout self.now (own_field name.now desc.now) (name_of (heads_in self.now) from) class.0 }
    {
        let record = self.record(class);
        self.reaches(from, class) && self.own_field(class, record, name, desc).is_some()
    }

    fn has_method(&self, from: ClassId, class: ClassId, name: &Name, desc: &Name) -> bool
        requires from_there { IsIn (heads_in self.now) from }
        requires there { IsIn (heads_in self.now) class }
        requires loads { load_error (mixture_of self.now) (name_of (heads_in self.now) from) ≡ None }
        ensures { result ≡ false → IsWithout self.now (own_method (is_method name.now desc.now)) (name_of (heads_in self.now) from) class.0 }
    {
        let record = self.record(class);
        self.reaches(from, class)
            && self
                .own_method(class, record, Sought::Method, name, desc)
                .is_some()
    }

    /// Whether a search for a field that comes to this type may find one. Of an interface it says so only where one is there.
    pub(crate) fn may_have_field(&self, class: ClassId, name: &Name, desc: &Name) -> bool
        requires there { IsIn (heads_in self.now) class }
        ensures { result ≡ false → (n : ℕ) → field_within (mixture_of self.now) n name.now desc.now (name_of (heads_in self.now) class) ≡ None }
    {
        if !self.is_loaded_interface(class) {
            return true;
        }
        let count = self.hier().len();
        for k in 0..count {
            if self.has_field(class, ClassId(k as u32), name, desc) {
                return true;
            }
        }
        false
    }

    /// Whether a search for a method of an interface that comes to this type may find one. Of an interface it says so only where one
    /// is there.
    pub(crate) fn may_have_method(&self, class: ClassId, name: &Name, desc: &Name) -> bool
        requires there { IsIn (heads_in self.now) class }
        ensures { result ≡ false → (n : ℕ) → interface_method_within (mixture_of self.now) n name.now desc.now (name_of (heads_in self.now) class) ≡ None }
    {
        if !self.is_loaded_interface(class) {
            return true;
        }
        let count = self.hier().len();
        for k in 0..count {
            if self.has_method(class, ClassId(k as u32), name, desc) {
                return true;
            }
        }
        false
    }
}
