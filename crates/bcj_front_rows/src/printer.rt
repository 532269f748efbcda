//! Trees as texts: `1 + a[i]` is `(+ 1 ([] a i))`. Behind a blank each node may have its first byte.
use bcj_names::Name;
use bcj_parser::{Access, Base, Mods, Param, TypeName};
use std::alloc::{AllocError, Global};

/// A text that grows, as long as there is memory for it.
#[derive(Drop)]
pub struct Printer {
    places: bool,
    text: String,
    is_short: bool,
}

impl Printer {
    pub fn new(alloc: Global, places: bool) -> Printer {
        Printer {
            places,
            text: String::new(alloc),
            is_short: false,
        }
    }

    /// The whole text.
    pub fn text(self) -> Result<String, AllocError> {
        let Printer { text, is_short, .. } = self;
        if is_short { Err(AllocError) } else { Ok(text) }
    }

    pub fn put(&mut self, part: &str) {
        if self.text.push_str(part).is_err() {
            self.is_short = true;
        }
    }

    fn put_blank(&mut self) {
        if !self.text.is_empty() {
            self.put(" ");
        }
    }

    fn put_place(&mut self, at: u32) {
        if self.places && write!(self.text, "{at}:").is_err() {
            self.is_short = true;
        }
    }

    pub fn word(&mut self, word: &str) {
        self.put(" ");
        self.put(word);
    }

    /// A node without parts.
    pub fn atom(&mut self, at: u32, word: &str) {
        self.put_blank();
        self.put_place(at);
        self.put(word);
    }

    pub fn open(&mut self, at: u32, head: &str) {
        self.put_blank();
        self.put_place(at);
        self.put("(");
        self.put(head);
    }

    /// Begins a part that is no node.
    pub fn open_part(&mut self, head: &str) {
        self.put(" (");
        self.put(head);
    }

    pub fn close(&mut self) {
        self.put(")");
    }

    pub fn number(&mut self, at: u32, value: u128, decimal: bool) {
        self.atom(at, if decimal { "" } else { "#" });
        if write!(self.text, "{value}").is_err() {
            self.is_short = true;
        }
    }

    pub fn type_name(&mut self, base: &Base, dims: u32) {
        self.word(match base {
            Base::Int => "int",
            Base::Bool => "boolean",
            Base::Void => "void",
            Base::Named(name) => name.as_str(),
        });
        for _ in 0..dims {
            self.put("[]");
        }
    }

    /// A head and names, where there are names.
    pub fn names(&mut self, head: &str, names: &[Name]) {
        if !names.is_empty() {
            self.open_part(head);
            for name in names {
                self.word(name.as_str());
            }
            self.close();
        }
    }

    pub fn parameters(&mut self, parameters: &[Param]) {
        self.open_part("params");
        for parameter in parameters {
            self.typed(&parameter.ty, &parameter.name);
        }
        self.close();
    }

    pub fn typed(&mut self, ty: &TypeName, name: &Name) {
        self.type_name(&ty.base, ty.dims);
        self.word(name.as_str());
    }

    fn word_where(&mut self, there: bool, word: &str) {
        if there {
            self.word(word);
        }
    }

    pub fn modifiers(&mut self, modifiers: Mods) {
        match modifiers.access {
            Access::Open => {}
            Access::Public => self.word("public"),
            Access::Protected => self.word("protected"),
            Access::Private => self.word("private"),
        }
        self.word_where(modifiers.is_static, "static");
        self.word_where(modifiers.is_abstract, "abstract");
        self.word_where(modifiers.is_final, "final");
    }
}
