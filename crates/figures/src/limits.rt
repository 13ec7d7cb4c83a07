// A channel is 0 to 15, a place is 0 to 255.
use numbers::channel::Channel;
use numbers::layer::Layer;
use numbers::place::Place;

#[test]
fn numbers_at_their_limits(rt: HostRuntime) {
    assert_eq!(rt; Channel::try_from(15u32).ok(), Some(Channel(15)));
    assert_eq!(rt; Channel::try_from(16u32).ok(), None);
    assert_eq!(rt; Place::try_from(255u32).ok(), Some(Place(255)));
    assert_eq!(rt; Place::try_from(256u32).ok(), None);
}

#[test]
fn names_of_layers(rt: HostRuntime) {
    assert_eq!(rt; Layer::Words.name(), "words");
    assert_eq!(rt; Layer::Program.name(), "program");
}
