//! The chained tuple space: rows of the caller's memory, linked into a chain for each site and one of free rows.
#![tactic(auto)]

mod chain;
pub mod chains;
mod ends;
mod free;
pub mod laws;
mod links;
pub mod row;
pub mod space;

#[cfg(test)]
mod tests {
    use crate::chains::Chains;
    use crate::row::ChainRow;
    use crate::space::ChainedSpace;
    use spaces::space::Space;
    use tuples::field::{Field, FieldType};
    use tuples::place::Place;
    use tuples::template::Template;
    use tuples::tuple::Tuple;

    #[test]
    fn oldest_first(rt: HostRuntime) {
        let one = Tuple::new(&[Field::Num(1)]).unwrap();
        let two = Tuple::new(&[Field::Num(2)]).unwrap();
        let any = Template::new(&[Place::Formal(FieldType::Num)]).unwrap();
        let mut memory = [ChainRow::blank(); 3];
        let mut space = ChainedSpace::over(&mut memory);
        assert!(rt; space.limit() == 3);
        assert!(rt; space.put(4, two).is_ok());
        assert!(rt; space.put(4, one).is_ok());
        assert!(rt; space.put(5, one).is_ok());
        assert!(rt; space.put(5, two).is_err());
        assert!(rt; space.put(32, two).is_err());
        assert!(rt; space.count(4, &any) == 2);
        assert!(rt; space.visits(4, &any) == 1);
        assert!(rt; space.take(4, &any) == Some(two));
        assert!(rt; space.peek(4, &any) == Some(one));
        assert!(rt; space.size() == 2);
        space.clear();
        assert!(rt; space.size() == 0);
    }

    #[test]
    fn chains_outlive_a_space(rt: HostRuntime) {
        let one = Tuple::new(&[Field::Num(1)]).unwrap();
        let any = Template::new(&[Place::Formal(FieldType::Num)]).unwrap();
        let mut memory = [ChainRow::blank(); 2];
        let mut first = ChainedSpace::from_chains(Chains::over(&mut memory));
        assert!(rt; first.put(4, one).is_ok());
        let chains = first.into_chains();
        let mut second = ChainedSpace::from_chains(chains);
        assert!(rt; second.limit() == 2);
        assert!(rt; second.size() == 1);
        assert!(rt; second.take(4, &any) == Some(one));
        assert!(rt; second.take(4, &any) == None);
    }
}
