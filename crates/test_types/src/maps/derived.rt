//! tools/derive wrote this file from maps.rt: it is not edited by hand.

ghost use Rattle.std.specs.Prelude.{◌≡◌, None, [], ◌∷◌, codes};
ghost use Rattle.serde_amqp.specs.Derive.{value_or, ◌▸◌, by_names, tree_by_names};

use super::{Blank, Product, Shop};
use serde_amqp::derive::{
    AfterCode, AfterName, AnyOf, Defaulted, Fault, Four, Global, MapOf, Name, Named, Of, One,
    Readable, Record, RoundTripReadable, Serialize, SerializeCompounds, Serializer, Shape,
    ShapeTree, Source, built, fields, named, named_after_name_returns, named_parts_return,
    read_shaped,
};

type BlankShape = AnyOf<MapOf<()>>;

impl Record for Blank {
    type Values = <BlankShape as Shape>::Value;

    ghost parts = { λ _. tt };

    fn from_parts(values: <BlankShape as Shape>::Value) -> Blank {
        built! { values => Blank {} }
    }
}

impl Named for Blank {
    ghost names = { [] };

    fn names_are_distinct() {}
}

impl Readable for Blank {
    ghost laws = { by_names ⟦<Blank as Named>⟧.names ⟦<BlankShape as Shape>⟧.laws
        ⟦<Blank as Record>⟧.parts };

    #[inline(always)]
    fn read_value<S: Source>(alloc: Global, source: S) -> Result<(Blank, S::Rest), Fault> {
        Blank::names_are_distinct();
        read_shaped(alloc, source, AnyOf(MapOf(())))
    }
}

impl Serialize for Blank {
    ghost tree = { tree_by_names ⟦<Blank as Named>⟧.names ⟦<BlankShape as ShapeTree>⟧.tree
        ⟦<Blank as Record>⟧.parts };

    fn serialize<S: Serializer>(&self, serializer: &mut S) -> Result<S::Ok, S::Error> {
        MapOf(fields! {}).serialize(serializer)
    }
}

impl RoundTripReadable for Blank {
    fn readable_law() {
        Blank::names_are_distinct();
        named_parts_return::<Blank, BlankShape>();
    }
}

type ShopShape = AfterName<AnyOf<MapOf<One<Of<u32>, One<Option<String>, ()>>>>>;

impl Record for Shop {
    type Values = <ShopShape as Shape>::Value;

    ghost parts = { λ x. x.number ▸ x.motto ▸ tt };

    fn from_parts(values: <ShopShape as Shape>::Value) -> Shop {
        built! { values => Shop { number, motto } }
    }
}

impl Named for Shop {
    ghost names = { codes "number" ∷ codes "motto" ∷ [] };

    fn names_are_distinct() {}
}

impl Readable for Shop {
    ghost laws = { by_names (codes "test:shop" ∷ ⟦<Shop as Named>⟧.names)
        ⟦<ShopShape as Shape>⟧.laws ⟦<Shop as Record>⟧.parts };

    #[inline(always)]
    fn read_value<S: Source>(alloc: Global, source: S) -> Result<(Shop, S::Rest), Fault> {
        Shop::names_are_distinct();
        let fields = named! { "number", "motto"? };
        read_shaped(alloc, source, AfterName("test:shop", AnyOf(MapOf(fields))))
    }
}

impl Serialize for Shop {
    ghost tree = { tree_by_names (codes "test:shop" ∷ ⟦<Shop as Named>⟧.names)
        ⟦<ShopShape as ShapeTree>⟧.tree ⟦<Shop as Record>⟧.parts };

    fn serialize<S: Serializer>(&self, serializer: &mut S) -> Result<S::Ok, S::Error> {
        serializer.serialize_described(
            &Name("test:shop"),
            &MapOf(fields! { "number": &self.number, "motto"?: &self.motto }),
        )
    }
}

impl RoundTripReadable for Shop {
    fn readable_law() {
        Shop::names_are_distinct();
        named_after_name_returns::<Shop, ShopShape>("test:shop");
    }
}

type ProductShape = AfterCode<AnyOf<MapOf<Row>>, 0x11>;

type Row = Four<Of<String>, Of<u32>, Defaulted<u16, 0>, Option<u64>, ()>;

impl Record for Product {
    type Values = <ProductShape as Shape>::Value;

    ghost parts = { λ x. x.product_name ▸ x.count ▸ x.stock ▸ x.size ▸ tt };

    fn from_parts(values: <ProductShape as Shape>::Value) -> Product {
        built! { values => Product { product_name, count, stock, size } }
    }
}

impl Named for Product {
    ghost names = { codes "product-name" ∷ codes "number" ∷ codes "stock" ∷ codes "size" ∷ [] };

    fn names_are_distinct() {}
}

impl Readable for Product {
    ghost laws = { by_names ⟦<Product as Named>⟧.names ⟦<ProductShape as Shape>⟧.laws
        ⟦<Product as Record>⟧.parts };

    #[inline(always)]
    fn read_value<S: Source>(alloc: Global, source: S) -> Result<(Product, S::Rest), Fault> {
        Product::names_are_distinct();
        let fields = named! { "product-name", "number", "stock" = 0, "size"? };
        read_shaped(alloc, source, AfterCode::<_, 0x11>(AnyOf(MapOf(fields))))
    }
}

impl Serialize for Product {
    ghost tree = { tree_by_names ⟦<Product as Named>⟧.names ⟦<ProductShape as ShapeTree>⟧.tree
        ⟦<Product as Record>⟧.parts };

    fn serialize<S: Serializer>(&self, serializer: &mut S) -> Result<S::Ok, S::Error> {
        serializer.serialize_described(
            &0x11u64,
            &MapOf(fields! {
                "product-name": &self.product_name, "number": &self.count, "stock": &self.stock,
                "size"?: &self.size
            }),
        )
    }
}

impl RoundTripReadable for Product {
    fn readable_law() {
        Product::names_are_distinct();
        named_parts_return::<Product, ProductShape>();
    }
}

impl Product {
    /// Returns a value with these fields. The others are `None`, or have their default.
    pub fn new(product_name: String, count: u32) -> Product
        ensures { ⟦<Product as Record>⟧.parts result ≡ product_name ▸ count ▸ 0 ▸ None ▸ tt }
    {
        Product {
            product_name,
            count,
            stock: 0,
            size: None,
        }
    }

    /// Returns `size`, or `1` if it is absent.
    pub fn size_or_default(&self) -> u64
        ensures { result ≡ value_or 1 self.now.size }
    {
        self.size.unwrap_or(1)
    }
}
