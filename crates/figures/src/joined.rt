// 'and' and 'or' work bit by bit, max takes the larger of two unsigned numbers, add gives the sum modulo 2^32.
use operators::choice::Choice;
use operators::operator::Operator;

#[test]
fn joined_words(rt: HostRuntime) {
    // two words, and what they join to by and, or, max and add
    let table = [
        [12, 10, 8, 14, 12, 22],
        [4294967295, 2, 2, 4294967295, 4294967295, 1],
        [0, 2147483648, 0, 2147483648, 2147483648, 2147483648],
    ];
    for [x, y, by_and, by_or, by_max, by_add] in table {
        assert_eq!(rt; Choice::And.join(x, y), by_and);
        assert_eq!(rt; Choice::Or.join(x, y), by_or);
        assert_eq!(rt; Choice::Max.join(x, y), by_max);
        assert_eq!(rt; Choice::Add.join(x, y), by_add);
    }
}
