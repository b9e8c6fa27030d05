//! tools/derive wrote this file from wide.rt: it is not edited by hand.

ghost use Rattle.std.specs.Prelude.{◌≡◌, None, [], ◌∷◌, true, false, codes};
ghost use Rattle.serde_amqp.specs.Derive.{value_or, ◌▸◌, by_parts, by_names, tree_by_parts};
ghost use Rattle.serde_amqp.specs.Derive.{after_code, after_code_by_names};

use super::{
    Array, ByteBuf, F32Bits, F64Bits, Order, OrderedMap, Place, Settings, Stock, Symbol, Timestamp,
    Uuid, Value, Year,
};
use serde_amqp::derive::{
    AfterCode, AnyOf, Composite, Defaulted, Fault, Four, Global, ListOf, MapOf, Named, Of, One,
    Readable, Record, RoundTripComposite, RoundTripReadable, Serialize, SerializeCompounds,
    Serializer, Shape, ShapeTree, Source, built, composite_returns, fields, named,
    named_composite_returns, parts_return, read_shaped,
};

type OrderShape = ListOf<Four<Of<u64>, Of<String>, Option<String>, Of<Vec<Symbol>>, Row>>;

type Row = Four<Defaulted<u8, 3>, Of<Timestamp>, Option<ByteBuf>, Kind, Row2>;

type Row2 = Four<Of<Uuid>, Option<u32>, Of<Place>, Option<Place>, Row3>;

type Row3 = Four<Defaulted<bool, 1>, Of<Array<u32>>, Of<i64>, Of<F64Bits>, Row4>;

type Row4 = Four<Of<char>, Option<F32Bits>, Option<Symbol>, Of<i32>, ()>;

type Kind = Of<OrderedMap<String, Value>>;

impl Record for Order {
    type Values = <OrderShape as Shape>::Value;

    ghost parts = { λ x. x.id ▸ x.title ▸ x.remark ▸ x.labels ▸ x.priority ▸ x.made ▸ x.photograph ▸
        x.properties ▸ x.maker ▸ x.weight ▸ x.from ▸ x.to ▸ x.is_open ▸ x.prices ▸ x.balance ▸
        x.height ▸ x.grade ▸ x.width ▸ x.kind ▸ x.change ▸ tt };

    fn from_parts(values: <OrderShape as Shape>::Value) -> Order {
        built! { values => Order {
            id, title, remark, labels, priority, made, photograph, properties, maker, weight, from,
            to, is_open, prices, balance, height, grade, width, kind, change
        } }
    }
}

impl Composite for Order {
    ghost descriptor_code = { 0x14 };

    ghost descriptor_name = { codes "test:order" };

    ghost body = { by_parts ⟦<OrderShape as Shape>⟧.laws ⟦<Order as Record>⟧.parts };

    fn descriptor() -> (u64, &'static str) {
        (0x14, "test:order")
    }

    #[inline(always)]
    fn read_body<S: Source>(alloc: Global, source: S) -> Result<(Order, S::Rest), Fault> {
        let fields = named! {
            "id", "title", "remark"?, "labels", "priority" = 3, "made", "photograph"?, "properties",
            "maker", "weight"?, "from", "to"?, "is-open" = 1, "prices", "balance", "height",
            "grade", "width"?, "kind"?, "change"
        };
        read_shaped(alloc, source, ListOf(fields))
    }
}

impl Serialize for Order {
    ghost tree = { after_code 0x14 ⟦<OrderShape as ShapeTree>⟧.tree ⟦<Order as Record>⟧.parts };

    fn serialize<S: Serializer>(&self, serializer: &mut S) -> Result<S::Ok, S::Error> {
        serializer.serialize_described(
            &0x14u64,
            &ListOf(fields! {
                "id": &self.id, "title": &self.title, "remark"?: &self.remark,
                "labels": &self.labels, "priority": &self.priority, "made": &self.made,
                "photograph"?: &self.photograph, "properties": &self.properties,
                "maker": &self.maker, "weight"?: &self.weight, "from": &self.from, "to"?: &self.to,
                "is-open": &self.is_open, "prices": &self.prices, "balance": &self.balance,
                "height": &self.height, "grade": &self.grade, "width"?: &self.width,
                "kind"?: &self.kind, "change": &self.change
            }),
        )
    }
}

impl RoundTripComposite for Order {
    fn composite_law() {
        composite_returns::<Order, OrderShape>();
    }
}

impl Order {
    /// Returns a value with these fields. The others are `None`, or have their default.
    pub fn new(
        id: u64,
        title: String,
        labels: Vec<Symbol>,
        made: Timestamp,
        properties: OrderedMap<String, Value>,
        maker: Uuid,
        from: Place,
        prices: Array<u32>,
        balance: i64,
        height: F64Bits,
        grade: char,
        change: i32,
    ) -> Order
        ensures { ⟦<Order as Record>⟧.parts result ≡ id ▸ title ▸ None ▸ labels ▸ 3 ▸ made ▸ None ▸
            properties ▸ maker ▸ None ▸ from ▸ None ▸ true ▸ prices ▸ balance ▸ height ▸ grade ▸
            None ▸ None ▸ change ▸ tt }
    {
        Order {
            id,
            title,
            remark: None,
            labels,
            priority: 3,
            made,
            photograph: None,
            properties,
            maker,
            weight: None,
            from,
            to: None,
            is_open: true,
            prices,
            balance,
            height,
            grade,
            width: None,
            kind: None,
            change,
        }
    }
}

type StockShape = AnyOf<MapOf<Four<Of<u32>, Of<Place>, Of<String>, Option<Symbol>, Row5>>>;

type Row5 = Four<Kind2, Defaulted<u16, 1>, Option<Timestamp>, Of<bool>, Row6>;

type Row6 = Four<Option<String>, Of<u64>, Option<u8>, Of<ByteBuf>, Row7>;

type Row7 = Four<Option<Vec<String>>, Option<Uuid>, Of<i16>, Option<i64>, Row8>;

type Row8 = Four<Option<char>, Option<Array<u64>>, Option<Place>, Option<u32>, ()>;

type Kind2 = Option<OrderedMap<Symbol, Value>>;

impl Record for Stock {
    type Values = <StockShape as Shape>::Value;

    ghost parts = { λ x. x.number ▸ x.place ▸ x.title ▸ x.kind ▸ x.notes ▸ x.size ▸ x.made ▸
        x.is_sold ▸ x.maker ▸ x.price ▸ x.tax ▸ x.photograph ▸ x.labels ▸ x.id ▸ x.least ▸ x.most ▸
        x.grade ▸ x.others ▸ x.back ▸ x.rating ▸ tt };

    fn from_parts(values: <StockShape as Shape>::Value) -> Stock {
        built! { values => Stock {
            number, place, title, kind, notes, size, made, is_sold, maker, price, tax, photograph,
            labels, id, least, most, grade, others, back, rating
        } }
    }
}

impl Named for Stock {
    ghost names = { codes "number" ∷ codes "place" ∷ codes "title" ∷ codes "kind" ∷ codes "notes" ∷
        codes "size" ∷ codes "made" ∷ codes "is-sold" ∷ codes "maker" ∷ codes "price" ∷ codes "tax"
        ∷ codes "photograph" ∷ codes "labels" ∷ codes "id" ∷ codes "least" ∷ codes "most" ∷
        codes "grade" ∷ codes "others" ∷ codes "back" ∷ codes "rating" ∷ [] };

    fn names_are_distinct() {}
}

impl Composite for Stock {
    ghost descriptor_code = { 0x15 };

    ghost descriptor_name = { codes "test:stock" };

    ghost body = { by_names ⟦<Stock as Named>⟧.names ⟦<StockShape as Shape>⟧.laws
        ⟦<Stock as Record>⟧.parts };

    fn descriptor() -> (u64, &'static str) {
        (0x15, "test:stock")
    }

    #[inline(always)]
    fn read_body<S: Source>(alloc: Global, source: S) -> Result<(Stock, S::Rest), Fault> {
        Stock::names_are_distinct();
        let fields = named! {
            "number", "place", "title", "kind"?, "notes"?, "size" = 1, "made"?, "is-sold", "maker"?,
            "price", "tax"?, "photograph", "labels"?, "id"?, "least", "most"?, "grade"?, "others"?,
            "back"?, "rating"?
        };
        read_shaped(alloc, source, AnyOf(MapOf(fields)))
    }
}

impl Serialize for Stock {
    ghost tree = { after_code_by_names 0x15 ⟦<Stock as Named>⟧.names
        ⟦<StockShape as ShapeTree>⟧.tree ⟦<Stock as Record>⟧.parts };

    fn serialize<S: Serializer>(&self, serializer: &mut S) -> Result<S::Ok, S::Error> {
        serializer.serialize_described(
            &0x15u64,
            &MapOf(fields! {
                "number": &self.number, "place": &self.place, "title": &self.title,
                "kind"?: &self.kind, "notes"?: &self.notes, "size": &self.size, "made"?: &self.made,
                "is-sold": &self.is_sold, "maker"?: &self.maker, "price": &self.price,
                "tax"?: &self.tax, "photograph": &self.photograph, "labels"?: &self.labels,
                "id"?: &self.id, "least": &self.least, "most"?: &self.most, "grade"?: &self.grade,
                "others"?: &self.others, "back"?: &self.back, "rating"?: &self.rating
            }),
        )
    }
}

impl RoundTripComposite for Stock {
    fn composite_law() {
        Stock::names_are_distinct();
        named_composite_returns::<Stock, StockShape>();
    }
}

impl Stock {
    /// Returns `tax`, or `20` if it is absent.
    pub fn tax_or_default(&self) -> u8
        ensures { result ≡ value_or 20 self.now.tax }
    {
        self.tax.unwrap_or(20)
    }
}

type YearShape = AfterCode<ListOf<Four<Of<String>, Of<u32>, Of<Place>, Option<i32>, Row9>>, 0x16>;

type Row9 = Four<Of<Timestamp>, Option<Timestamp>, Defaulted<u16, 365>, Of<Vec<u32>>, Row10>;

type Row10 = Four<Option<Vec<u32>>, Of<i16>, Of<i16>, Of<F32Bits>, Row11>;

type Row11 = Four<Option<F64Bits>, Of<Array<u8>>, Option<u32>, Defaulted<bool, 0>, Row12>;

type Row12 = Four<Option<String>, Option<Vec<Symbol>>, Of<OrderedMap<u16, String>>, Kind2, Row13>;

type Row13 = Four<Of<Uuid>, Option<Uuid>, Of<ByteBuf>, Option<ByteBuf>, Row14>;

type Row14 = Four<Of<char>, Option<char>, Of<u64>, Option<u8>, Row15>;

type Row15 = Four<Of<i8>, Option<i64>, Option<Place>, Of<bool>, ()>;

impl Record for Year {
    type Values = <YearShape as Shape>::Value;

    ghost parts = { λ x. x.station ▸ x.number ▸ x.place ▸ x.height ▸ x.first ▸ x.last ▸ x.days ▸
        x.rain ▸ x.snow ▸ x.warmest ▸ x.coldest ▸ x.mean ▸ x.spread ▸ x.winds ▸ x.calm ▸ x.is_leap ▸
        x.observer ▸ x.kinds ▸ x.remarks ▸ x.others ▸ x.id ▸ x.former ▸ x.curve ▸ x.picture ▸
        x.grade ▸ x.mark ▸ x.hours ▸ x.months ▸ x.change ▸ x.lowest ▸ x.moved ▸ x.is_final ▸ tt };

    fn from_parts(values: <YearShape as Shape>::Value) -> Year {
        built! { values => Year {
            station, number, place, height, first, last, days, rain, snow, warmest, coldest, mean,
            spread, winds, calm, is_leap, observer, kinds, remarks, others, id, former, curve,
            picture, grade, mark, hours, months, change, lowest, moved, is_final
        } }
    }
}

impl Readable for Year {
    ghost laws = { by_parts ⟦<YearShape as Shape>⟧.laws ⟦<Year as Record>⟧.parts };

    #[inline(always)]
    fn read_value<S: Source>(alloc: Global, source: S) -> Result<(Year, S::Rest), Fault> {
        let fields = named! {
            "station", "number", "place", "height"?, "first", "last"?, "days" = 365, "rain",
            "snow"?, "warmest", "coldest", "mean", "spread"?, "winds", "calm"?, "is_leap" = 0,
            "observer"?, "kinds"?, "remarks", "others"?, "id", "former"?, "curve", "picture"?,
            "grade", "mark"?, "hours", "months"?, "change", "lowest"?, "moved"?, "is_final"
        };
        read_shaped(alloc, source, AfterCode::<_, 0x16>(ListOf(fields)))
    }
}

impl Serialize for Year {
    ghost tree = { tree_by_parts ⟦<YearShape as ShapeTree>⟧.tree ⟦<Year as Record>⟧.parts };

    fn serialize<S: Serializer>(&self, serializer: &mut S) -> Result<S::Ok, S::Error> {
        serializer.serialize_described(
            &0x16u64,
            &ListOf(fields! {
                "station": &self.station, "number": &self.number, "place": &self.place,
                "height"?: &self.height, "first": &self.first, "last"?: &self.last,
                "days": &self.days, "rain": &self.rain, "snow"?: &self.snow,
                "warmest": &self.warmest, "coldest": &self.coldest, "mean": &self.mean,
                "spread"?: &self.spread, "winds": &self.winds, "calm"?: &self.calm,
                "is_leap": &self.is_leap, "observer"?: &self.observer, "kinds"?: &self.kinds,
                "remarks": &self.remarks, "others"?: &self.others, "id": &self.id,
                "former"?: &self.former, "curve": &self.curve, "picture"?: &self.picture,
                "grade": &self.grade, "mark"?: &self.mark, "hours": &self.hours,
                "months"?: &self.months, "change": &self.change, "lowest"?: &self.lowest,
                "moved"?: &self.moved, "is_final": &self.is_final
            }),
        )
    }
}

impl RoundTripReadable for Year {
    fn readable_law() {
        parts_return::<Year, YearShape>();
    }
}

impl Year {
    /// Returns `months`, or `12` if it is absent.
    pub fn months_or_default(&self) -> u8
        ensures { result ≡ value_or 12 self.now.months }
    {
        self.months.unwrap_or(12)
    }
}

type SettingsShape = ListOf<Row16>;

type Row16 = Four<Defaulted<u8, 1>, Kind3, Defaulted<u32, 3>, Defaulted<u64, 4>, Row17>;

type Row17 = Four<Defaulted<bool, 1>, Option<u8>, Option<u16>, Option<u32>, Row18>;

type Row18 = Four<Option<u64>, Option<bool>, Defaulted<u32, 11>, Defaulted<u32, 12>, Row19>;

type Row19 = One<Defaulted<u64, 13>, One<Defaulted<u8, 14>, ()>>;

type Kind3 = Defaulted<u16, 2>;

impl Record for Settings {
    type Values = <SettingsShape as Shape>::Value;

    ghost parts = { λ x. x.a ▸ x.b ▸ x.c ▸ x.d ▸ x.e ▸ x.f ▸ x.g ▸ x.h ▸ x.i ▸ x.j ▸ x.k ▸ x.l ▸ x.m
        ▸ x.n ▸ tt };

    fn from_parts(values: <SettingsShape as Shape>::Value) -> Settings {
        built! { values => Settings { a, b, c, d, e, f, g, h, i, j, k, l, m, n } }
    }
}

impl Composite for Settings {
    ghost descriptor_code = { 0x17 };

    ghost descriptor_name = { codes "test:settings" };

    ghost body = { by_parts ⟦<SettingsShape as Shape>⟧.laws ⟦<Settings as Record>⟧.parts };

    fn descriptor() -> (u64, &'static str) {
        (0x17, "test:settings")
    }

    #[inline(always)]
    fn read_body<S: Source>(alloc: Global, source: S) -> Result<(Settings, S::Rest), Fault> {
        let fields = named! {
            "a" = 1, "b" = 2, "c" = 3, "d" = 4, "e" = 1, "f"?, "g"?, "h"?, "i"?, "j"?, "k" = 11,
            "l" = 12, "m" = 13, "n" = 14
        };
        read_shaped(alloc, source, ListOf(fields))
    }
}

impl Serialize for Settings {
    ghost tree = { after_code 0x17 ⟦<SettingsShape as ShapeTree>⟧.tree
        ⟦<Settings as Record>⟧.parts };

    fn serialize<S: Serializer>(&self, serializer: &mut S) -> Result<S::Ok, S::Error> {
        serializer.serialize_described(
            &0x17u64,
            &ListOf(fields! {
                "a": &self.a, "b": &self.b, "c": &self.c, "d": &self.d, "e": &self.e, "f"?: &self.f,
                "g"?: &self.g, "h"?: &self.h, "i"?: &self.i, "j"?: &self.j, "k": &self.k,
                "l": &self.l, "m": &self.m, "n": &self.n
            }),
        )
    }
}

impl RoundTripComposite for Settings {
    fn composite_law() {
        composite_returns::<Settings, SettingsShape>();
    }
}

impl Settings {
    /// Returns `f`, or `6` if it is absent.
    pub fn f_or_default(&self) -> u8
        ensures { result ≡ value_or 6 self.now.f }
    {
        self.f.unwrap_or(6)
    }

    /// Returns `g`, or `7` if it is absent.
    pub fn g_or_default(&self) -> u16
        ensures { result ≡ value_or 7 self.now.g }
    {
        self.g.unwrap_or(7)
    }

    /// Returns `h`, or `8` if it is absent.
    pub fn h_or_default(&self) -> u32
        ensures { result ≡ value_or 8 self.now.h }
    {
        self.h.unwrap_or(8)
    }

    /// Returns `i`, or `9` if it is absent.
    pub fn i_or_default(&self) -> u64
        ensures { result ≡ value_or 9 self.now.i }
    {
        self.i.unwrap_or(9)
    }

    /// Returns `j`, or `false` if it is absent.
    pub fn j_or_default(&self) -> bool
        ensures { result ≡ value_or false self.now.j }
    {
        self.j.unwrap_or(false)
    }
}
