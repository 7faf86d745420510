// Refusals of the two programs, on texts of each sort, and the largest plan and the longest key that they take.
#![tactic(auto)]

#[cfg(test)]
mod tests {
    use programs::dealing::deal_cards;
    use programs::output::Output;
    use programs::returning::open_cards;
    use std::alloc::AllocGlobal;
    use std::process::Abort;
    use std::test::*;

    // Cards 1 and 2 of a deal under the plan 01 01 02 03, 02 8DF6.
    const CARD_1: &str = "03 01 0000002A 02 03 01 02 3FA0";

    const CARD_2: &str = "03 01 0000002A 02 03 02 02 4CA0";

    // A program granted, and wrote the text wanted.
    fn grants(rt: &impl Abort, output: Output, wanted: &str) -> Result<(), Fail> {
        assert!(rt; output.granted);
        assert_eq!(rt; output.text.as_str(), wanted);
        Ok(())
    }

    // A program refused with the line wanted.
    fn refuses(rt: &impl Abort, output: Output, wanted: &str) -> Result<(), Fail> {
        assert!(rt; !output.granted);
        assert_eq!(rt; output.text.as_str(), wanted);
        Ok(())
    }

    // What the dealing program refuses a text with.
    fn undealt(rt: &(impl Abort + AllocGlobal), text: &[u8], wanted: &str) -> Result<(), Fail> {
        refuses(rt, deal_cards(rt.alloc(), text)?, wanted)
    }

    // What the opening program refuses a text with.
    fn unopened(rt: &(impl Abort + AllocGlobal), text: &[u8], wanted: &str) -> Result<(), Fail> {
        refuses(rt, open_cards(rt.alloc(), text)?, wanted)
    }

    // What it refuses two cards with, in lines 2 and 3.
    fn two_unopened(
        rt: &(impl Abort + AllocGlobal),
        first: &str,
        second: &str,
        wanted: &str,
    ) -> Result<(), Fail> {
        let text = format!(in rt.alloc(); "01 01 02 03\n02 8DF6\n{first}\n{second}\n")?;
        unopened(rt, text.as_bytes(), wanted)
    }

    // A line at fault, or text after the last line.
    #[test]
    fn lines_refused(rt: HostRuntime) -> Result<(), Fail> {
        undealt(&rt, b"01 01 02 09\n", "0F 44 0000 0000\n")?;
        undealt(&rt, b"01 01 02 03\n02 8DF\n", "0F 43 0000 0001\n")?;
        undealt(
            &rt,
            b"01 01 02 03\n02 8DF6\n04 0000002A 1234\n05 A00B0C\n",
            "0F 45 0000 0003\n",
        )?;
        undealt(
            &rt,
            b"01 01 02 03\n02 8DF6\n04 0000002A 1234\n05 A00B\n05 A00B\n",
            "0F 46 0000 FFFF\n",
        )
    }

    // A plan that is not admitted, one that is not vetted, and a dummy key that is no codes.
    #[test]
    fn plans_refused(rt: HostRuntime) -> Result<(), Fail> {
        undealt(&rt, b"01 01 02 03\n02 0100\n", "0F 15 0005 FFFF\n")?;
        undealt(&rt, b"01 01 03 04\n02 010101\n", "0F 16 0005 FFFF\n")?;
        undealt(
            &rt,
            b"01 02 02 03\n02 3101\n04 0000002A 0A14\n05 6161\n",
            "0F 19 0002 FFFF\n",
        )
    }

    // A card line at fault, and text after the last card, which comes before a card that is held already.
    #[test]
    fn lines_unopened(rt: HostRuntime) -> Result<(), Fail> {
        two_unopened(
            &rt,
            CARD_1,
            "03 01 0000002A 02 03 03 02 4CA0",
            "0F 44 0000 0003\n",
        )?;
        two_unopened(
            &rt,
            CARD_1,
            "03 01 0000002A 02 03 02 02 4CA0\n0",
            "0F 46 0000 FFFF\n",
        )?;
        two_unopened(
            &rt,
            CARD_1,
            "03 01 0000002A 02 03 01 02 3FA0\n0",
            "0F 46 0000 FFFF\n",
        )
    }

    // A card of another deal, a card twice, and cards of another n than the plan's.
    #[test]
    fn cards_unopened(rt: HostRuntime) -> Result<(), Fail> {
        two_unopened(
            &rt,
            CARD_1,
            "03 01 0000002B 02 03 02 02 4CA0",
            "0F 50 0000 0003\n",
        )?;
        two_unopened(&rt, CARD_2, CARD_2, "0F 51 0002 0003\n")?;
        two_unopened(
            &rt,
            "03 01 0000002A 02 04 01 02 3FA0",
            "03 01 0000002A 02 04 02 02 4CA0",
            "0F 52 0000 FFFF\n",
        )
    }

    // A plan that is not admitted, a number that is no code modulo 97, and a key 01 02 03 that is padded with 07.
    #[test]
    fn numbers_unopened(rt: HostRuntime) -> Result<(), Fail> {
        unopened(&rt, b"01 01 02 03\n02 0100\n", "0F 15 0005 FFFF\n")?;
        unopened(
            &rt,
            b"01 02 02 03\n02 3101\n03 02 0000002A 02 03 01 02 130E\n03 02 0000002A 02 03 02 02 2761\n",
            "0F 35 0201 0003\n",
        )?;
        unopened(
            &rt,
            b"01 01 02 02\n03 01 0000002A 02 02 00 03 01020000\n03 01 0000002A 02 02 01 03 03070000\n",
            "0F 38 0003 FFFF\n",
        )
    }

    // Nine cards, and one card that opens alone, are beyond the limits of a plan.
    #[test]
    fn plans_beyond(rt: HostRuntime) -> Result<(), Fail> {
        undealt(&rt, b"01 01 02 09\n", "0F 44 0000 0000\n")?;
        undealt(&rt, b"01 01 01 03\n", "0F 44 0000 0000\n")?;
        unopened(&rt, b"01 01 02 09\n", "0F 44 0000 0000\n")?;
        unopened(&rt, b"01 01 01 03\n", "0F 44 0000 0000\n")
    }

    // A key of 64 numbers is dealt onto two cards and opened; one of 65 is refused. The dummy key is zero, so each card has
    // half of the key and zeros.
    #[test]
    fn longest_key(rt: HostRuntime) -> Result<(), Fail> {
        let heap = rt.alloc();
        let zeros = "00".repeat(heap, 32)?;
        let ones = "11".repeat(heap, 32)?;
        let twos = "22".repeat(heap, 32)?;
        let key = format!(in heap; "04 0000002A {ones}{twos}\n")?;
        let cards = format!(in heap;
            "03 01 0000002A 02 02 00 40 {ones}{zeros}\n03 01 0000002A 02 02 01 40 {twos}{zeros}\n"
        )?;
        let deal = format!(in heap; "01 01 02 02\n{key}05 {zeros}{zeros}\n")?;
        let opening = format!(in heap; "01 01 02 02\n{cards}")?;
        grants(&rt, deal_cards(heap, deal.as_bytes())?, cards.as_str())?;
        grants(&rt, open_cards(heap, opening.as_bytes())?, key.as_str())?;
        let key = format!(in heap; "01 01 02 02\n04 0000002A {ones}{twos}33\n")?;
        let card = format!(in heap; "01 01 02 02\n03 01 0000002A 02 02 00 41 {ones}11{zeros}00\n")?;
        undealt(&rt, key.as_bytes(), "0F 44 0000 0001\n")?;
        unopened(&rt, card.as_bytes(), "0F 44 0000 0001\n")
    }

    // A key is dealt onto eight cards, all of which open it. The dummy keys are zero, so each card has one number of the key
    // and zeros.
    #[test]
    fn eight_cards(rt: HostRuntime) -> Result<(), Fail> {
        let heap = rt.alloc();
        let key = "04 0000002A 0102030405060708\n";
        let dummies = "05 0000000000000000\n".repeat(heap, 7)?;
        let mut cards = String::new(heap);
        for j in 0..8u8 {
            let card = format!(in heap; "03 01 0000002A 08 08 0{j} 08 0{}00000000000000\n", j + 1)?;
            cards.push_str(card.as_str())?;
        }
        let deal = format!(in heap; "01 01 08 08\n{key}{dummies}")?;
        let opening = format!(in heap; "01 01 08 08\n{cards}")?;
        grants(&rt, deal_cards(heap, deal.as_bytes())?, cards.as_str())?;
        grants(&rt, open_cards(heap, opening.as_bytes())?, key)
    }
}
