//! Calls each law of `rlp_tool::laws` once, to show that it can be called. What a law says is proved.

#[test]
fn laws_of_lines() {
    rlp_tool::laws::raw_items_are_tested(&[0x01, 0x02]);
    rlp_tool::laws::finished_lines_are_answered(b"+u e");
    rlp_tool::laws::open_lines_are_answered(b"+u");
    rlp_tool::laws::refused_lines_are_answered(b"+e");
}
