//! Tuple spaces: what every space promises, and the space that keeps its tuples in a tray.
#![tactic(auto)]

pub mod held;
pub mod laws;
pub mod space;
pub mod tray_space;

#[cfg(test)]
mod tests {
    use crate::held::Held;
    use crate::space::{PutRefusal, Space};
    use crate::tray_space::HeldTray;
    use rows::tray::Tray;
    use std::test::Fail;
    use tuples::field::{Field, FieldType};
    use tuples::place::Place;
    use tuples::site::Site;
    use tuples::template::Template;
    use tuples::tuple::Tuple;
    use tuples::word::Word;

    #[test]
    fn values_print_by_number(rt: HostRuntime) -> Result<(), Fail> {
        let word = Word::new(127).unwrap();
        let site = Site::new(31).unwrap();
        let fields = [Field::Word(word), Field::Num(-7), Field::Site(site)];
        let tuple = Tuple::new(&fields).unwrap();
        assert!(rt; format!(in rt.alloc(); "{tuple}")?.as_str() == "(w127, -7, s31)");
        let places = [
            Place::Actual(Field::Num(7)),
            Place::Formal(FieldType::Num),
            Place::Formal(FieldType::Word),
            Place::Formal(FieldType::Site),
        ];
        let template = Template::new(&places).unwrap();
        assert!(rt; format!(in rt.alloc(); "{template}")?.as_str() == "(7, !num, !word, !site)");
        Ok(())
    }

    #[test]
    fn what_is_out_of_range_is_refused(rt: HostRuntime) {
        assert!(rt; Word::new(128).is_none());
        assert!(rt; Site::new(32).is_none());
        assert!(rt; Tuple::new(&[]).is_none());
        assert!(rt; Tuple::new(&[Field::Num(0); 5]).is_none());
        assert!(rt; Template::new(&[]).is_none());
        assert!(rt; Template::new(&[Place::Formal(FieldType::Num); 5]).is_none());
    }

    #[test]
    fn spaces_keep_their_limit(rt: HostRuntime) {
        let site = Site::new(0).unwrap();
        let tuple = Tuple::new(&[Field::Num(1)]).unwrap();
        let mut none: [Held; 0] = [];
        let mut empty: HeldTray = Tray::over(&mut none);
        assert_eq!(rt; empty.put(0, tuple), Err(PutRefusal::Full));
        assert_eq!(rt; Space::limit(&empty), 0);
        let mut many = [Held { site, tuple }; 5000];
        let mut wide: HeldTray = Tray::over(&mut many);
        for _ in 0..4096 {
            assert_eq!(rt; wide.put(31, tuple), Ok(()));
        }
        assert_eq!(rt; wide.put(31, tuple), Err(PutRefusal::Full));
        assert_eq!(rt; wide.put(32, tuple), Err(PutRefusal::NoSuchSite));
        assert_eq!(rt; wide.size(), 4096);
    }
}
