//! `Delimited` for options, lists, pairs and triples of delimited values.
ghost use Rattle.wenc_base.specs.Prelude.{back_through, list_back, list_equal, list_serves};
ghost use Rattle.wenc_base.specs.Prelude.{option_back, option_equal, option_serves, order_serves};
ghost use Rattle.wenc_base.specs.Prelude.{pair_back, pair_equal};

use super::{Delimited, DelimitedEq};

impl<T: Delimited> Delimited for Option<T> {
    ghost reads_back = { option_back T.reads_back };

    ghost written = { option_serves T.piece T.reads_back.seen T.reads_back.form T.written };
}

impl<T: DelimitedEq> DelimitedEq for Option<T> {
    ghost alike = { λ _. option_equal T.eq T.reads_back.seen (T.alike T.Eq.laws) };
}

impl<T: Delimited> Delimited for &[T] {
    ghost reads_back = { back_through (λ values. values.now) (list_back T.reads_back) };

    ghost written = { λ values. list_serves T.piece T.reads_back.seen T.reads_back.form T.written
        values.now };
}

impl<T: DelimitedEq> DelimitedEq for &[T] {
    ghost alike = { λ _ a b. list_equal T.eq T.reads_back.seen (T.alike T.Eq.laws) a.now b.now };
}

impl<T: Delimited, U: Delimited> Delimited for (T, U) {
    ghost reads_back = { pair_back T.reads_back U.reads_back };

    ghost written = { λ p. order_serves (T.written p.0) (U.written p.1) };
}

impl<T: DelimitedEq, U: DelimitedEq> DelimitedEq for (T, U) {
    ghost alike = { λ _. pair_equal T.eq U.eq T.reads_back.seen U.reads_back.seen
        (T.alike T.Eq.laws) (U.alike U.Eq.laws) };
}

impl<T: Delimited, U: Delimited, V: Delimited> Delimited for (T, U, V) {
    ghost reads_back = { back_through (λ t. (t.0, (t.1, t.2)))
        (pair_back T.reads_back (pair_back U.reads_back V.reads_back)) };

    ghost written = { λ t. order_serves (T.written t.0)
        (order_serves (U.written t.1) (V.written t.2)) };
}
