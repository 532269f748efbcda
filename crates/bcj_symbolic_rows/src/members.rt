//! Members and classes of a unit's text, each kind on a stack. A class takes those that stand behind it.

use crate::code::Code;
use crate::leaves::{Leaves, sequence};
use bcj_symbolic::{
    ClassHead, MethodKind, Name, Pair, Sequence, SymClass, SymField, SymInit, SymMethod, SymUnit,
};
use sqlite_items::Items;
use std::alloc::Global;

#[derive(Drop)]
pub struct Members {
    alloc: Global,
    interfaces: Items<Name>,
    fields: Items<SymField>,
    inits: Items<SymInit>,
    methods: Items<SymMethod>,
    pairs: Items<Pair>,
    classes: Items<SymClass>,
}

impl Members {
    pub fn new(alloc: Global) -> Members {
        Members {
            alloc,
            interfaces: Items::new(alloc),
            fields: Items::new(alloc),
            inits: Items::new(alloc),
            methods: Items::new(alloc),
            pairs: Items::new(alloc),
            classes: Items::new(alloc),
        }
    }

    /// A field without a constant.
    pub fn field(&mut self, is_static: bool, is_private: bool, leaves: &mut Leaves) -> Option<()> {
        let name = leaves.names.pop()?;
        let ty = leaves.types.pop()?;
        let field = SymField {
            name,
            ty,
            is_static,
            is_final: false,
            is_private,
            constant: None,
        };
        self.fields.push(field).ok()
    }

    pub fn constant(
        &mut self,
        is_static: bool,
        is_private: bool,
        leaves: &mut Leaves,
    ) -> Option<()> {
        let name = leaves.names.pop()?;
        let ty = leaves.types.pop()?;
        let constant = leaves.numbers.pop()?;
        let field = SymField {
            name,
            ty,
            is_static,
            is_final: true,
            is_private,
            constant: Some(constant),
        };
        self.fields.push(field).ok()
    }

    pub fn method(
        &mut self,
        kind: MethodKind,
        is_private: bool,
        leaves: &mut Leaves,
        code: &mut Code,
    ) -> Option<()> {
        let name = leaves.names.pop()?;
        let params = leaves.type_lists.pop()?;
        let result_type = leaves.types.pop()?;
        let locals = leaves.type_lists.pop()?;
        let body = code.bodies.pop()?;
        let method = SymMethod {
            name,
            params,
            result: result_type,
            kind,
            is_private,
            locals,
            body,
        };
        self.methods.push(method).ok()
    }

    pub fn init(&mut self, leaves: &mut Leaves, code: &mut Code) -> Option<()> {
        let locals = leaves.type_lists.pop()?;
        let body = code.bodies.pop()?;
        self.inits.push(SymInit { locals, body }).ok()
    }

    pub fn pair(&mut self, leaves: &mut Leaves) -> Option<()> {
        let from = leaves.types.pop()?;
        let to = leaves.types.pop()?;
        self.pairs.push(Pair { from, to }).ok()
    }

    pub fn implements(&mut self, leaves: &mut Leaves) -> Option<()> {
        let name = leaves.names.pop()?;
        self.interfaces.push(name).ok()
    }

    pub fn class(&mut self, interface: bool, leaves: &mut Leaves) -> Option<()> {
        let name = leaves.names.pop()?;
        let superclass = leaves.names.pop()?;
        self.close(name, interface, Some(superclass))
    }

    pub fn root(&mut self, interface: bool, leaves: &mut Leaves) -> Option<()> {
        let name = leaves.names.pop()?;
        self.close(name, interface, None)
    }

    fn close(&mut self, name: Name, interface: bool, superclass: Option<Name>) -> Option<()> {
        let head = ClassHead {
            name,
            interface,
            is_abstract: interface,
            superclass,
            interfaces: sequence(self.alloc, &mut self.interfaces, 0)?,
        };
        let class = SymClass {
            head,
            fields: sequence(self.alloc, &mut self.fields, 0)?,
            init: self.initialiser(),
            methods: sequence(self.alloc, &mut self.methods, 0)?,
            pairs: sequence(self.alloc, &mut self.pairs, 0)?,
        };
        self.classes.push(class).ok()
    }

    fn initialiser(&mut self) -> SymInit {
        match self.inits.pop() {
            Some(init) => init,
            None => SymInit {
                locals: Sequence::new(self.alloc),
                body: Items::new(self.alloc),
            },
        }
    }

    pub fn finish(&mut self) -> Option<SymUnit> {
        let classes = sequence(self.alloc, &mut self.classes, 0)?;
        Some(SymUnit { classes })
    }
}
