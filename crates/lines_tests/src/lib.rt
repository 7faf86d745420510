// Tables of sound and damaged lines, for every fault and every boundary.
#![tactic(auto)]

#[cfg(test)]
mod tests {
    use lines::{DealMark, Entry, Fault, Line, Part, Reader, Wanted};
    use std::process::Abort;
    use std::test::Fail;

    // Reads a text with one line wanted, and nothing after it.
    fn read_alone(text: &[u8], wanted: Wanted<'_>) -> Result<(), Fault> {
        let mut reader = Reader::new(text)?;
        reader.read(wanted)?;
        reader.end()
    }

    // The number and the carried place of the fault of a text with one line wanted, 0 and 0 if there is none.
    fn fault_of(text: &[u8], wanted: Wanted<'_>) -> (u8, usize) {
        match read_alone(text, wanted) {
            Ok(()) => (0, 0),
            Err(fault) => (fault.number(), fault.carries()),
        }
    }

    fn row(rt: &impl Abort, text: &[u8], number: u8, carries: usize) {
        let (n, c) = fault_of(text, Wanted::a_row(2));
        assert_eq!(rt; n, number);
        assert_eq!(rt; c, carries);
    }

    fn plan(rt: &impl Abort, text: &[u8], number: u8) {
        assert_eq!(rt; fault_of(text, Wanted::Plan { marks: &[1, 2] }).0, number);
    }

    fn card(rt: &impl Abort, text: &[u8], number: u8) {
        assert_eq!(rt; fault_of(text, Wanted::a_card(1)).0, number);
    }

    #[test]
    fn absent_lines(rt: HostRuntime) {
        row(&rt, b"", 0x40, 0);
        row(&rt, b"\n", 0x40, 0);
        row(&rt, b"02 8DF6", 0x40, 0);
        row(&rt, b"\n02 8DF6\n", 0x40, 0);
        row(&rt, b"02 8DF6\n", 0, 0);
    }

    #[test]
    fn unsound_bytes(rt: HostRuntime) {
        row(&rt, b"02 8Df6\n", 0x41, 5);
        row(&rt, b"x2 8DF6\n", 0x41, 0);
        row(&rt, b"02 8DF6\r\n", 0x41, 7);
        row(&rt, b"02\t8DF6\n", 0x41, 2);
        row(&rt, b"02 8DG6\n", 0x41, 5);
        row(&rt, b"02 8D:6\n", 0x41, 5);
        row(&rt, b"02 8D/6\n", 0x41, 5);
        row(&rt, b"02 8D@6\n", 0x41, 5);
    }

    #[test]
    fn other_kinds(rt: HostRuntime) {
        row(&rt, b"05 8DF6\n", 0x42, 0);
        row(&rt, b" 02 8DF6\n", 0x42, 0);
        row(&rt, b"2 8DF6\n", 0x42, 0);
        row(&rt, b"002 8DF6\n", 0x42, 0);
        row(&rt, b"028DF6\n", 0x42, 0);
        row(&rt, b"20 8DF6\n", 0x42, 0);
        row(&rt, b"12 8DF6\n", 0x42, 0);
        row(&rt, b" \n", 0x42, 0);
    }

    #[test]
    fn misshapen_rows(rt: HostRuntime) {
        row(&rt, b"02  8DF6\n", 0x43, 0);
        row(&rt, b"02 8DF6 \n", 0x43, 0);
        row(&rt, b"02 8DF\n", 0x43, 0);
        row(&rt, b"02\n", 0x43, 0);
        row(&rt, b"02 \n", 0x43, 0);
        row(&rt, b"02 8D F6\n", 0x43, 0);
    }

    #[test]
    fn misshapen_plans_and_cards(rt: HostRuntime) {
        plan(&rt, b"01 01 02\n", 0x43);
        plan(&rt, b"01 01 02 03 04\n", 0x43);
        plan(&rt, b"01 01 2 03\n", 0x43);
        plan(&rt, b"01 01 002 03\n", 0x43);
        plan(&rt, b"01 01 02 03 \n", 0x43);
        card(&rt, b"03 01 000002A 02 03 00 02 B20B\n", 0x43);
        card(&rt, b"03 01 00000002A 02 03 00 02 B20B\n", 0x43);
        card(&rt, b"03 01 0000002A 02 03 00 02\n", 0x43);
        card(&rt, b"03 01 0000002A 02 03 00 02 \n", 0x43);
        card(&rt, b"03 01 0000002A 02 03 00 02 B20\n", 0x43);
    }

    #[test]
    fn plans_beyond_limits(rt: HostRuntime) {
        plan(&rt, b"01 01 02 03\n", 0);
        plan(&rt, b"01 02 02 02\n", 0);
        plan(&rt, b"01 01 08 08\n", 0);
        plan(&rt, b"01 01 02 08\n", 0);
        plan(&rt, b"01 01 02 09\n", 0x44);
        plan(&rt, b"01 01 01 03\n", 0x44);
        plan(&rt, b"01 01 04 03\n", 0x44);
        plan(&rt, b"01 03 02 03\n", 0x44);
        plan(&rt, b"01 00 02 03\n", 0x44);
    }

    #[test]
    fn cards_beyond_limits(rt: HostRuntime) {
        card(&rt, b"03 01 0000002A 02 03 00 02 B20B\n", 0);
        card(&rt, b"03 01 FFFFFFFF 02 03 02 02 B20B\n", 0);
        card(&rt, b"03 02 0000002A 02 03 00 02 B20B\n", 0x44);
        card(&rt, b"03 01 0000002A 01 03 00 02 B20B\n", 0x44);
        card(&rt, b"03 01 0000002A 04 03 00 02 B20B\n", 0x44);
        card(&rt, b"03 01 0000002A 02 09 00 02 B20B\n", 0x44);
        card(&rt, b"03 01 0000002A 02 03 03 02 B20B\n", 0x44);
        card(&rt, b"03 01 0000002A 02 03 00 00 B20B\n", 0x44);
        card(&rt, b"03 01 0000002A 02 03 00 41 B20B\n", 0x44);
    }

    #[test]
    fn data_of_another_length(rt: HostRuntime) {
        row(&rt, b"02 8D\n", 0x45, 0);
        row(&rt, b"02 8DF600\n", 0x45, 0);
        card(&rt, b"03 01 0000002A 02 03 00 03 B20B\n", 0x45);
        card(&rt, b"03 01 0000002A 02 03 00 03 B20B0000\n", 0);
        card(&rt, b"03 01 0000002A 02 03 00 01 B20B\n", 0);
        card(&rt, b"03 01 0000002A 02 03 00 40 B20B\n", 0x45);
        assert_eq!(rt; fault_of(b"05 A00B\n", Wanted::a_dummy(2, 2)).0, 0);
        assert_eq!(rt; fault_of(b"05 A00B\n", Wanted::a_dummy(2, 3)).0, 0x45);
        assert_eq!(rt; fault_of(b"05 A00B00\n", Wanted::a_dummy(3, 1)).0, 0);
        assert_eq!(rt; fault_of(b"05 A00B\n", Wanted::a_dummy(0, 2)).0, 0x45);
    }

    fn key(rt: &impl Abort, text: &[u8], number: u8) {
        assert_eq!(rt; fault_of(text, Wanted::a_key()).0, number);
    }

    #[test]
    fn keys_of_each_length(rt: HostRuntime) {
        key(&rt, b"04 0000002A\n", 0x43);
        key(&rt, b"04 0000002A 0\n", 0x43);
        key(&rt, b"04 0000002A 00\n", 0);
        key(
            &rt,
            b"04 0000002A 5A5A5A5A5A5A5A5A5A5A5A5A5A5A5A5A5A5A5A5A5A5A5A5A5A5A5A5A5A5A5A5A5A5A5A5A5A5A5A5A5A5A5A5A5A5A5A5A5A5A5A5A5A5A5A5A5A5A5A5A5A5A5A5A\n",
            0,
        );
        key(
            &rt,
            b"04 0000002A 5A5A5A5A5A5A5A5A5A5A5A5A5A5A5A5A5A5A5A5A5A5A5A5A5A5A5A5A5A5A5A5A5A5A5A5A5A5A5A5A5A5A5A5A5A5A5A5A5A5A5A5A5A5A5A5A5A5A5A5A5A5A5A5A5A\n",
            0x44,
        );
    }

    // Cards for a key of 64 numbers, and of one number more.
    #[test]
    fn cards_of_each_length(rt: HostRuntime) {
        card(
            &rt,
            b"03 01 0000002A 02 03 00 40 5A5A5A5A5A5A5A5A5A5A5A5A5A5A5A5A5A5A5A5A5A5A5A5A5A5A5A5A5A5A5A5A5A5A5A5A5A5A5A5A5A5A5A5A5A5A5A5A5A5A5A5A5A5A5A5A5A5A5A5A5A5A5A5A\n",
            0,
        );
        card(
            &rt,
            b"03 01 0000002A 02 03 00 40 5A5A5A5A5A5A5A5A5A5A5A5A5A5A5A5A5A5A5A5A5A5A5A5A5A5A5A5A5A5A5A5A5A5A5A5A5A5A5A5A5A5A5A5A5A5A5A5A5A5A5A5A5A5A5A5A5A5A5A5A5A5A5A5A5A\n",
            0x45,
        );
        card(
            &rt,
            b"03 01 0000002A 02 03 00 41 5A5A5A5A5A5A5A5A5A5A5A5A5A5A5A5A5A5A5A5A5A5A5A5A5A5A5A5A5A5A5A5A5A5A5A5A5A5A5A5A5A5A5A5A5A5A5A5A5A5A5A5A5A5A5A5A5A5A5A5A5A5A5A5A5A5A\n",
            0x44,
        );
    }

    #[test]
    fn texts_too_long(rt: HostRuntime) {
        row(&rt, b"02 8DF6\n05", 0x46, 0);
        row(&rt, b"02 8DF6\n\n", 0x46, 0);
        row(&rt, b"02 8Df6\n05", 0x41, 5);
        row(&rt, b"02 8D\n05", 0x45, 0);
        let text = [b'0'; 4097];
        row(&rt, &text, 0x46, 0);
        row(&rt, &text[0..4096], 0x40, 0);
    }

    #[test]
    fn lines_one_after_the_other(rt: HostRuntime) -> Result<(), Fail> {
        let mut reader = Reader::new(b"01 01 02 03\n02 8DF6\n04 0000002A 1234\n")?;
        assert_eq!(rt; reader.number(), 0);
        let plan = Line::Plan {
            field: 1,
            t: 2,
            n: 3,
        };
        assert_eq!(rt; reader.read(Wanted::Plan { marks: &[1] })?, plan);
        assert!(rt; reader.read(Wanted::a_row(3)).is_err());
        assert_eq!(rt; reader.number(), 1);
        let data = Part {
            place: 3,
            digits: b"8DF6",
        };
        assert_eq!(rt; reader.read(Wanted::a_row(2))?, Line::Row { data });
        assert_eq!(rt; data.count(), 2);
        assert_eq!(rt; data.number(0), 0x8d);
        assert_eq!(rt; data.number(1), 0xf6);
        assert_eq!(rt; data.number(2), 0);
        Ok(())
    }

    // A last single digit spells no number.
    #[test]
    fn numbers_of_a_part(rt: HostRuntime) {
        let part = Part {
            place: 3,
            digits: b"8DF60",
        };
        let mut numbers = part.numbers();
        assert_eq!(rt; numbers.next(), Some(0x8d));
        assert_eq!(rt; numbers.next(), Some(0xf6));
        assert_eq!(rt; numbers.next(), None);
    }

    #[test]
    fn a_key_with_its_mark(rt: HostRuntime) -> Result<(), Fail> {
        let mut reader = Reader::new(b"04 DEADBEEF 1234\n")?;
        let mark = Part {
            place: 3,
            digits: b"DEADBEEF",
        };
        let data = Part {
            place: 12,
            digits: b"1234",
        };
        assert_eq!(rt; reader.read(Wanted::a_key())?, Line::Key { mark, data });
        assert_eq!(rt; DealMark::of(mark).number, 0xdead_beef);
        assert!(rt; reader.end().is_ok());
        assert_eq!(rt; reader.number(), 1);
        Ok(())
    }

    #[test]
    fn written_lines(rt: HostRuntime) -> Result<(), Fail> {
        let heap = rt.alloc();
        let mark = DealMark { number: 42 };
        let plan = Entry::Plan {
            field: 1,
            t: 2,
            n: 3,
        };
        assert_eq!(rt; plan.text(heap)?.as_str(), "01 01 02 03\n");
        let row = Entry::Row {
            numbers: &[0x8d, 0xf6],
        };
        assert_eq!(rt; row.text(heap)?.as_str(), "02 8DF6\n");
        let card = Entry::Card {
            field: 1,
            mark,
            t: 2,
            n: 3,
            card: 0,
            size: 2,
            numbers: &[0xb2, 0x0b],
        };
        assert_eq!(rt;
            card.text(heap)?.as_str(),
            "03 01 0000002A 02 03 00 02 B20B\n"
        );
        let key = Entry::Key {
            mark,
            numbers: &[0x12, 0x34],
        };
        assert_eq!(rt; key.text(heap)?.as_str(), "04 0000002A 1234\n");
        let dummy = Entry::Dummy {
            numbers: &[0xa0, 0x0b],
        };
        assert_eq!(rt; dummy.text(heap)?.as_str(), "05 A00B\n");
        let refusal = Entry::Refusal {
            number: 0x16,
            carries: 5,
            line: None,
        };
        assert_eq!(rt; refusal.text(heap)?.as_str(), "0F 16 0005 FFFF\n");
        Ok(())
    }
}
