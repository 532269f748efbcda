//! What the rows of bcj_machine_rows don't reach: the lists of the assembler, and the laws.
#![tactic(auto)]

#[cfg(test)]
mod tests {
    use bcj_asm::{
        Code, Item, Items, Label, assemble_with_places, branches_settle, labels_are_reached,
    };
    use bcj_elf::one_spelling;
    use rv_isa::Instr;
    use std::test::Fail;

    #[test]
    fn lists_give_back_what_was_pushed(rt: HostRuntime) -> Result<(), Fail> {
        let mut items = Items::new(rt.alloc());
        items.push(Item::Place(Label(4)))?;
        assert_eq!(rt; items.len(), 1);
        assert!(rt; matches!(items.get(0), Some(Item::Place(Label(4)))));
        assert!(rt; items.get(1).is_none());
        let mut code = Code::new(rt.alloc());
        code.push(7)?;
        assert_eq!(rt; code.len(), 1);
        assert_eq!(rt; code.get(0).copied(), Some(7));
        assert!(rt; code.get(1).is_none());
        Ok(())
    }

    #[test]
    fn places_are_those_of_the_items(rt: HostRuntime) -> Result<(), Fail> {
        let mut items = Items::new(rt.alloc());
        items.push(Item::Branch {
            instr: Instr::Beq {
                rs1: 10,
                rs2: 0,
                imm: 0,
            },
            to: Label(1),
        })?;
        items.push(Item::Word(Instr::Ecall))?;
        items.push(Item::Place(Label(1)))?;
        items.push(Item::Word(Instr::Ebreak))?;
        let assembled = assemble_with_places(rt.alloc(), &items)?;
        assert_eq!(rt;
            assembled.code.as_slice(),
            [0x00050463, 0x00000073, 0x00100073].as_slice()
        );
        assert_eq!(rt; assembled.places.as_slice(), [0, 1, 2, 2].as_slice());
        assert_eq!(rt; assembled.places.len(), 4);
        assert_eq!(rt; assembled.places.get(3).copied(), Some(2));
        Ok(())
    }

    #[test]
    fn laws_ask_nothing_of_their_callers() {
        branches_settle();
        labels_are_reached();
        one_spelling();
    }
}
