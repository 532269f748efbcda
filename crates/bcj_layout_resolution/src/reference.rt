ghost use Rattle.std.specs.Prelude.{◌≡◌, None, Some, Ok, Err, IfOk, IfErr, IfSome, IfNone};
ghost use Rattle.bcj_symbolic_trees.specs.Types.{ty_of, class_type};
ghost use Rattle.bcj_hier_rules.specs.declared.call_kind.CallKind.{CallKind};
ghost use Rattle.bcj_hier_rules.specs.Heads.{IsIn, name_of, error_of};
ghost use Rattle.bcj_hier_rules.specs.Loading.{turns, load_error};
ghost use Rattle.bcj_hier_rules.specs.Resolution.{FoundField, FoundMethod, resolved_field, resolved_method, resolved_interface, type_error, found_class_method, found_constructor, element_error, new_error, called_method, interface_method};
ghost use Rattle.bcj_hier_rules.specs.Selection.{open_within};
ghost use Rattle.bcj_layout_rules.specs.Rows.{mixture_of};
ghost use Rattle.bcj_layout_resolution.specs.Places.{heads_in, wanted, IsField, IsMethod};
ghost use Rattle.bcj_layout_resolution.specs.Searches.{NamesMethod, AnswersMethod};

use crate::member::{FieldId, MethodId};
use crate::resolver::Resolver;
use crate::sought::Sought;
use bcj_hier_rules::{CallKind, ClassId, LinkError};
use bcj_names::Name;
use bcj_symbolic_trees::Ty;

impl Resolver {
    /// The field that code of the class `from` names.
    pub fn field(
        &self,
        from: ClassId,
        class: &Name,
        name: &Name,
        desc: &Name,
        is_static: bool,
    ) -> Result<FieldId, LinkError>
        requires there { IsIn (heads_in self.now) from }
        ensures ok { IfOk result (λ f. (x : FoundField)
            × (resolved_field (mixture_of self.now) (name_of (heads_in self.now) from) (wanted class.now name.now desc.now) is_static ≡ Ok x)
            × IsField self.now f x) }
        ensures err { IfErr result (λ e.
            resolved_field (mixture_of self.now) (name_of (heads_in self.now) from) (wanted class.now name.now desc.now) is_static ≡ Err e) }
    {
        let number = self.load(class)?;
        match self.field_within(self.turns(), number, name, desc) {
            None => Err(LinkError::NoSuchField),
            Some(field) => {
                self.use_field(from, field, is_static)?;
                Ok(field)
            }
        }
    }

    /// A method of a class and its superclasses, or else of their superinterfaces.
    fn class_method(&self, class: ClassId, name: &Name, desc: &Name) -> Option<MethodId>
        requires there { IsIn (heads_in self.now) class }
        ensures { NamesMethod self.now result (found_class_method (mixture_of self.now) (wanted (name_of (heads_in self.now) class) name.now desc.now)) }
    {
        let method = self.method_along(class, Sought::Method, name, desc);
        if method.is_some() {
            return method;
        }
        self.inherited(class, name, desc)
    }

    /// A constructor of a class.
    fn constructor(&self, class: ClassId, name: &Name, desc: &Name) -> Option<MethodId>
        requires there { IsIn (heads_in self.now) class }
        ensures { NamesMethod self.now result (found_constructor (mixture_of self.now) (wanted (name_of (heads_in self.now) class) name.now desc.now)) }
    {
        self.own_method(class, self.record(class), Sought::Constructor, name, desc)
    }

    /// What a call finds.
    fn called_method(
        &self,
        class: ClassId,
        name: &Name,
        desc: &Name,
        kind: CallKind,
    ) -> Result<MethodId, LinkError>
        requires there { IsIn (heads_in self.now) class }
        ensures { AnswersMethod self.now result (called_method (mixture_of self.now) (wanted (name_of (heads_in self.now) class) name.now desc.now) kind) }
    {
        let method = if let CallKind::Constructor = kind {
            self.constructor(class, name, desc)
        } else if self.record(class).head.interface {
            return Err(LinkError::IncompatibleClassChange);
        } else {
            self.class_method(class, name, desc)
        };
        match method {
            None => Err(LinkError::NoSuchMethod),
            Some(method) => Ok(method),
        }
    }

    /// The method or constructor that code of the class `from` calls.
    pub fn method(
        &self,
        from: ClassId,
        class: &Name,
        name: &Name,
        desc: &Name,
        kind: CallKind,
    ) -> Result<MethodId, LinkError>
        requires there { IsIn (heads_in self.now) from }
        ensures ok { IfOk result (λ f. (x : FoundMethod)
            × (resolved_method (mixture_of self.now) (name_of (heads_in self.now) from) (wanted class.now name.now desc.now) kind ≡ Ok x)
            × IsMethod self.now f x) }
        ensures err { IfErr result (λ e.
            resolved_method (mixture_of self.now) (name_of (heads_in self.now) from) (wanted class.now name.now desc.now) kind ≡ Err e) }
    {
        let number = self.load(class)?;
        let method = self.called_method(number, name, desc, kind)?;
        self.use_method(from, method, kind)?;
        Ok(method)
    }

    /// What a call by interface finds.
    fn named_interface_method(
        &self,
        class: ClassId,
        name: &Name,
        desc: &Name,
    ) -> Result<MethodId, LinkError>
        requires there { IsIn (heads_in self.now) class }
        ensures { AnswersMethod self.now result (interface_method (mixture_of self.now) (wanted (name_of (heads_in self.now) class) name.now desc.now)) }
    {
        if !self.record(class).head.interface {
            return Err(LinkError::IncompatibleClassChange);
        }
        match self.interface_method_within(self.turns(), class, name, desc) {
            None => Err(LinkError::NoSuchMethod),
            Some(method) => Ok(method),
        }
    }

    /// The method that code of the class `from` calls by interface.
    pub fn interface_method(
        &self,
        from: ClassId,
        class: &Name,
        name: &Name,
        desc: &Name,
    ) -> Result<MethodId, LinkError>
        requires there { IsIn (heads_in self.now) from }
        ensures ok { IfOk result (λ f. (x : FoundMethod)
            × (resolved_interface (mixture_of self.now) (name_of (heads_in self.now) from) (wanted class.now name.now desc.now) ≡ Ok x)
            × IsMethod self.now f x) }
        ensures err { IfErr result (λ e.
            resolved_interface (mixture_of self.now) (name_of (heads_in self.now) from) (wanted class.now name.now desc.now) ≡ Err e) }
    {
        let number = self.load(class)?;
        let method = self.named_interface_method(number, name, desc)?;
        self.use_method(from, method, CallKind::Instance)?;
        Ok(method)
    }

    /// Whether the type of the elements, behind all brackets, loads.
    #[tactic(auto, using(bcj_symbolic_trees::proofs::PlainLemmas::tree_rules))]
    fn elements(&self, ty: &Ty) -> Result<(), LinkError>
        ensures { error_of result ≡ element_error (mixture_of self.now) (ty_of ty.now) }
    {
        match ty {
            Ty::Int | Ty::Bool | Ty::Void => Ok(()),
            Ty::Class(name) => match self.load(name) {
                Ok(_) => Ok(()),
                Err(error) => Err(error),
            },
            Ty::Array(component) => self.elements(component.get()),
        }
    }

    /// Whether a class may be made an instance of.
    fn made(&self, name: &Name) -> Result<(), LinkError>
        ensures { error_of result ≡ new_error (mixture_of self.now) (class_type name.now) }
    {
        let number = self.load(name)?;
        let head = &self.record(number).head;
        if head.is_abstract || head.interface {
            Err(LinkError::Instantiation)
        } else {
            Ok(())
        }
    }

    /// Whether a type may be made an instance of.
    #[tactic(auto, using(bcj_symbolic_trees::proofs::PlainLemmas::tree_rules))]
    fn made_of(&self, ty: &Ty) -> Result<(), LinkError>
        ensures { error_of result ≡ new_error (mixture_of self.now) (ty_of ty.now) }
    {
        match ty {
            Ty::Class(name) => self.made(name),
            Ty::Int | Ty::Bool | Ty::Void => Ok(()),
            Ty::Array(component) => self.elements(component.get()),
        }
    }

    /// Whether a type may be used, or be made an instance of.
    pub fn class(&self, ty: &Ty, is_new: bool) -> Result<(), LinkError>
        ensures { error_of result ≡ type_error (mixture_of self.now) (ty_of ty.now) is_new }
    {
        if is_new {
            self.made_of(ty)
        } else {
            self.elements(ty)
        }
    }

    /// The first method of this name of a class and its superclasses that is neither static nor private.
    pub fn open_method(&self, class: ClassId, name: &Name, desc: &Name) -> Option<MethodId>
        requires there { IsIn (heads_in self.now) class }
        requires loads { load_error (mixture_of self.now) (name_of (heads_in self.now) class) ≡ None }
        ensures some { IfSome result (λ f. (x : FoundMethod)
            × (open_within (mixture_of self.now) (turns (mixture_of self.now)) name.now desc.now (name_of (heads_in self.now) class) ≡ Some x)
            × IsMethod self.now f x) }
        ensures none { IfNone result
            (open_within (mixture_of self.now) (turns (mixture_of self.now)) name.now desc.now (name_of (heads_in self.now) class) ≡ None) }
    {
        self.method_along(class, Sought::Open, name, desc)
    }
}
